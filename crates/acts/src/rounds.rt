//! Rounds.

ghost use Rattle.std.specs.Prelude.{◌≡◌, ◌*◌, ◌≤◌, ◌↔◌, IsSome, IfSome};

/// How many rounds a rig has: one to eight, of four stages each.
#[derive(Clone, Copy, PartialEq, Eq, Debug)]
pub struct Rounds {
    pub count: u8,
    ghost from_1: { 1 ≤ count },
    ghost to_8: { count ≤ 8 },
}

impl Rounds {
    /// How many stages a round has.
    pub const QUARTERS: u8 = 4;

    /// This many rounds, if a rig can have so many.
    pub fn new(rounds: u8) -> Option<Rounds>
        ensures in_range { IsSome result ↔ ((1 ≤ rounds) × (rounds ≤ 8)) }
        ensures count { IfSome result (λ r. r.count ≡ rounds) }
    {
        if (1..=8).contains(&rounds) {
            Some(Rounds { count: rounds })
        } else {
            None
        }
    }

    /// How many stages they have: stages are numbered through, from 0.
    pub fn stages(self) -> u8
        ensures { result ≡ 4 * self.count }
    {
        Rounds::QUARTERS * self.count
    }
}
