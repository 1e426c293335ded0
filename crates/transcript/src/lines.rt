//! The lines.

#![tactic(auto, using(crate::proofs::Lengths::of_lines))]

ghost use Rattle.std.specs.Prelude.{◌≡◌, ◌<◌, ◌≤◌, length, map, All, option_map, MatchResult};
ghost use Rattle.agreement.specs.Station.{bit};
ghost use Rattle.agreement.specs.Rig.{refused};
ghost use Rattle.rig.specs.Calls.{answer};
ghost use Rattle.rig.specs.Faults.{number};
ghost use Rattle.calls.specs.Calls.{call_of, answer_of};
ghost use Rattle.transcript.specs.Text.{line_of, word as word_field};
ghost use Rattle.transcript.specs.Fields.{field_of, IsShort};
ghost use Rattle.transcript.specs.Lines.{message_fields as fields_of, call_word};
ghost use Rattle.transcript.specs.Lines.{call_line, station_line, missing_line, refusal_line};
ghost use Rattle.transcript.specs.Putting.{LinePut};

use crate::fault::LineFault;
use crate::field::{Field, put_line};
use agreement::Message;
use calls::answer::Answer;
use calls::call::Call;
use rig::{CallFault, Delivery, StationOutcome};

/// How many bytes a buffer has at least, so that every line fits.
pub const LINE: usize = 32;

// The word of a refusal.
const NO: Field = Field::Word(b"no");

/// Refuses a buffer that is too short for some line.
pub(crate) fn check_room(buffer: &[u8]) -> Result<(), LineFault>
    ensures { MatchResult result (λ _. 32 ≤ length buffer.now) (λ _. length buffer.now < 32) }
{
    if buffer.len() < LINE {
        return Err(LineFault::Short);
    }
    Ok(())
}

// Puts the line of some fields at the beginning of a buffer, if that has room for every line.
fn put(buffer: &mut [u8], fields: &[Field]) -> Result<usize, LineFault>
    requires { length (line_of (map field_of fields.now)) ≤ 32 }
    ensures { LinePut (line_of (map field_of fields.now)) buffer.old buffer.new result }
{
    check_room(buffer)?;
    Ok(put_line(buffer, fields))
}

// The word with which the line of a call begins.
fn word(call: Call) -> Field
    ensures is { field_of result ≡ word_field (call_word (call_of call)) }
    ensures short { IsShort result }
{
    Field::Word(match call {
        Call::Turn { .. } => b"t",
        Call::Deliver { .. } => b"d",
        Call::Send { .. } => b"f",
        Call::Lose { .. } => b"l",
    })
}

/// Puts an own station's line, of those that end a transcript: its stage and its decision.
pub fn put_station(
    buffer: &mut [u8],
    station: u8,
    outcome: &StationOutcome,
) -> Result<usize, LineFault>
    ensures { LinePut (station_line station outcome.now.stage (option_map bit outcome.now.decision)) buffer.old buffer.new result }
{
    let decision = match outcome.decision {
        Some(bit) => Field::byte(bit as u8),
        None => Field::Word(b"-"),
    };
    let [station, stage] = [station, outcome.stage].map(Field::byte);
    put(buffer, &[Field::Word(b"s"), station, stage, decision])
}

/// Puts the last line: how many messages are missing.
pub fn put_missing(buffer: &mut [u8], missing: u32) -> Result<usize, LineFault>
    ensures { LinePut (missing_line missing) buffer.old buffer.new result }
{
    put(buffer, &[Field::Word(b"m"), Field::Number(missing)])
}

/// Puts the only line of a file that is refused: the refusal's number, and its place.
pub fn put_refusal(buffer: &mut [u8], number: u8, place: u16) -> Result<usize, LineFault>
    ensures { LinePut (refusal_line number place) buffer.old buffer.new result }
{
    let place = Field::Number(place as u32);
    put(buffer, &[NO, Field::byte(number), place])
}

/// Puts the line of a call and its answer.
pub fn put_answer(
    buffer: &mut [u8],
    call: Call,
    made: Result<Answer, CallFault>,
) -> Result<usize, LineFault>
    ensures { LinePut (call_line (call_of call) (answer answer_of made)) buffer.old buffer.new result }
{
    match made {
        Ok(answer) => put_granted(buffer, call, answer),
        Err(fault) => put_refused(buffer, call, fault),
    }
}

// Puts the line of a call that was not refused.
fn put_granted(buffer: &mut [u8], call: Call, answer: Answer) -> Result<usize, LineFault>
    ensures { LinePut (call_line (call_of call) (answer_of answer)) buffer.old buffer.new result }
{
    let word = word(call);
    match answer {
        Answer::Acted { station, act } => {
            let (rule, stage, value) = act.numbers();
            let [station, rule, stage, value] = [station, rule, stage, value].map(Field::byte);
            put(buffer, &[word, station, rule, stage, value])
        }
        Answer::Delivered { delivery } => {
            let [sender, addressee, kind, stage, value] = message_fields(delivery.message);
            let changed = Field::byte(delivery.changed as u8);
            put(
                buffer,
                &[word, sender, addressee, kind, stage, value, changed],
            )
        }
        Answer::Sent => put(buffer, &[word, Field::Word(b"ok")]),
        Answer::Lost { message } => {
            let [sender, addressee, kind, stage, value] = message_fields(message);
            put(buffer, &[word, sender, addressee, kind, stage, value])
        }
    }
}

// Puts the line of a call that was refused.
fn put_refused(buffer: &mut [u8], call: Call, fault: CallFault) -> Result<usize, LineFault>
    ensures { LinePut (call_line (call_of call) (refused (number fault))) buffer.old buffer.new result }
{
    let word = word(call);
    let number = Field::byte(fault.number());
    match call {
        Call::Turn { station } => put(buffer, &[word, Field::byte(station), NO, number]),
        _ => put(buffer, &[word, NO, number]),
    }
}

// The five fields of a message.
fn message_fields(message: Message) -> [Field; 5]
    ensures are { map field_of result ≡ fields_of message }
    ensures short { All IsShort result }
{
    let Message {
        sender,
        addressee,
        kind,
        stage,
        value,
    } = message;
    [sender, addressee, kind, stage, value].map(Field::byte)
}
