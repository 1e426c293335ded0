//! Values, sets of them, and gradings.

ghost use Rattle.std.specs.Prelude.{◌≡◌};
ghost use Rattle.agreement.specs.Sets.{number as set_number};
ghost use Rattle.agreement.specs.Station.{bit as bit_number, grading_of};
ghost use Rattle.acts.specs.Values.{number, value_of_bit, value_of_number, values, and_value};
ghost use Rattle.acts.specs.Gradings.{in_numbers};

/// What a station may prepare, admit and propose: a bit, or blank.
#[derive(Clone, Copy, PartialEq, Eq, Debug)]
pub enum Value {
    Zero,
    One,
    Blank,
}

/// A bit as a value.
impl From<bool> for Value {
    ghost from_gives = { λ bit v. v ≡ value_of_bit bit };

    fn from(bit: bool) -> Value {
        if bit { Value::One } else { Value::Zero }
    }
}

impl Value {
    /// The value with this number: 0 and 1 for the bits, 2 for blank; there is no other.
    pub fn from_number(number: u8) -> Option<Value>
        ensures { result ≡ value_of_number number }
    {
        match number {
            0 => Some(Value::Zero),
            1 => Some(Value::One),
            2 => Some(Value::Blank),
            _ => None,
        }
    }
}

/// A set of values, by what closing a stage tells apart.
#[derive(Clone, Copy, PartialEq, Eq, Debug)]
pub enum ValueSet {
    Empty,
    /// Blank alone.
    Blank,
    /// One bit alone.
    Bit(bool),
    /// One bit, and blank.
    BitAndBlank(bool),
    /// Both bits, without blank.
    Bits,
    All,
}

/// How far a stage's proposal set speaks for one bit.
#[derive(Clone, Copy, PartialEq, Eq, Debug)]
pub enum Grade {
    Zero,
    One,
    Two,
}

/// A bit or none, and a grade.
pub type Grading = (Option<bool>, Grade);

impl ValueSet {
    /// Whether a value is in the set.
    pub fn has(self, value: Value) -> bool
        ensures { result ≡ values self (number value) }
    {
        match self {
            ValueSet::Empty => false,
            ValueSet::Blank => value == Value::Blank,
            ValueSet::Bit(bit) => value == bit.into(),
            ValueSet::BitAndBlank(bit) => value != (!bit).into(),
            ValueSet::Bits => value != Value::Blank,
            ValueSet::All => true,
        }
    }

    /// The set's number: 1 for 0, 2 for 1 and 4 for blank, added.
    pub fn number(self) -> u8
        ensures { result ≡ set_number 3 (values self) }
    {
        self.has(Value::Zero) as u8
            + 2 * self.has(Value::One) as u8
            + 4 * self.has(Value::Blank) as u8
    }

    /// The set with one value more.
    pub fn with(self, value: Value) -> ValueSet
        ensures { values result ≡ and_value (values self) (number value) }
    {
        match value {
            Value::Zero => self.with_bit(false),
            Value::One => self.with_bit(true),
            Value::Blank => match self {
                ValueSet::Empty | ValueSet::Blank => ValueSet::Blank,
                ValueSet::Bit(bit) | ValueSet::BitAndBlank(bit) => ValueSet::BitAndBlank(bit),
                ValueSet::Bits | ValueSet::All => ValueSet::All,
            },
        }
    }

    fn with_bit(self, bit: bool) -> ValueSet
        ensures { values result ≡ and_value (values self) (bit_number bit) }
    {
        match self {
            ValueSet::Empty => ValueSet::Bit(bit),
            ValueSet::Blank => ValueSet::BitAndBlank(bit),
            ValueSet::Bit(held) if held != bit => ValueSet::Bits,
            ValueSet::BitAndBlank(held) if held != bit => ValueSet::All,
            _ => self,
        }
    }

    /// The grading of a proposal set: a bit alone has grade 2, a bit with blank grade 1; any other set has no bit, and
    /// grade 0.
    pub fn grading(self) -> Grading
        ensures { in_numbers result ≡ grading_of (values self) }
    {
        match self {
            ValueSet::Bit(bit) => (Some(bit), Grade::Two),
            ValueSet::BitAndBlank(bit) => (Some(bit), Grade::One),
            _ => (None, Grade::Zero),
        }
    }
}
