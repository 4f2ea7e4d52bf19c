// The tests of a line's text.
ghost use Rattle.std.specs.Prelude.{◌≡◌, ℕ, Some, MatchResult};
ghost use Rattle.text.specs.Heads.{head_of};
ghost use Rattle.text.specs.Lines.{Unreadable, Reads as LineReads};
ghost use Rattle.text.specs.Order.{last_head};

use crate::entry::Entry;
use crate::fault::Fault;
use crate::machine::Stage;
use crate::reader::Line;
use crate::records::{head_of, record_of};
use crate::values::{BadField, entry_of};
use geometry::refusal::Refusal;

// What a line says after those before it, and the stage behind it; or why it is refused for its text.
pub fn classify(stage: Stage, line: Line) -> Result<(Entry, Stage), Fault>
    ensures { MatchResult result (λ es. LineReads (last_head stage) line.entry.bytes.now line.entry.ended es.0 × (last_head es.1 ≡ Some (head_of es.0))) (λ f. Unreadable (last_head stage) line.entry.bytes.now line.entry.ended line.entry.number f) }
{
    let misheaded = Fault::at(Refusal::Head, line.number);
    if !line.ended {
        return Err(misheaded);
    }
    let mut parts = line.parts();
    let first = parts.next_part().ok_or(misheaded)?;
    let head = head_of(first.bytes).ok_or(misheaded)?;
    let next = stage.follow(head).ok_or(misheaded)?;
    let miscounted = Fault::at(Refusal::Fields, line.number);
    let record = record_of(head, &mut parts).ok_or(miscounted)?;
    // no `map_err`, whose closure would take the line's number along: here what is read goes on with the stage, and what is not with the line
    match entry_of(record) {
        Ok(entry) => Ok((entry, next)),
        Err(BadField(field)) => Err(Fault::in_field(Refusal::Field, line.number, field)),
    }
}
