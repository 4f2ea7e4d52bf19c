// A line's head, and its fields by their names.
ghost use Rattle.std.specs.Prelude.{◌≡◌, ℕ, List, [], ◌∷◌, ◌++◌, ◌<◌, length, MatchOption, ◌≢◌};
ghost use Rattle.text.specs.Heads.{word, shape, head_of, fields};
ghost use Rattle.text.specs.Text.{left};
ghost use Rattle.text.specs.declared.head.Head.{Head as AnyHead};

use crate::head::{Head, Record};
use crate::reader::Parts;

// The head that a word names.
pub fn head_of(text: &[u8]) -> Option<Head>
    ensures { MatchOption result ((h : AnyHead) → text.now ≢ word h) (λ h. text.now ≡ word h) }
{
    match text {
        b"plan" => Some(Head::Plan),
        b"ground" => Some(Head::Ground),
        b"frame" => Some(Head::Frame),
        b"corner" => Some(Head::Corner),
        b"face" => Some(Head::Face),
        b"lay" => Some(Head::Lay),
        b"cast" => Some(Head::Cast),
        _ => None,
    }
}

// The next field, or none past the last.
fn field<'a>(parts: &mut Parts<'a>) -> Option<&'a [u8]>
    ensures { MatchOption result (left parts.old ≡ []) (λ f. left parts.old ≡ f.now ∷ left parts.new) }
{
    parts.next_part().map(|part| part.bytes)
}

// The record of a line with this head and the next fields, or none where there are too few.
fn next_record<'a>(head: Head, parts: &mut Parts<'a>) -> Option<Record<'a>>
    ensures { MatchOption result (length (left parts.old) < length (shape head)) (λ a. (head_of a ≡ head) × (length (fields a) ≡ length (shape head)) × (left parts.old ≡ fields a ++ left parts.new)) }
{
    match head {
        Head::Plan => Some(Record::Plan {
            width: field(parts)?,
            rows: field(parts)?,
            kind: field(parts)?,
        }),
        Head::Ground => Some(Record::Ground {
            height: field(parts)?,
        }),
        Head::Frame => Some(Record::Frame {
            c0: field(parts)?,
            r0: field(parts)?,
            c1: field(parts)?,
            r1: field(parts)?,
        }),
        Head::Corner => Some(Record::Corner {
            x: field(parts)?,
            y: field(parts)?,
            z: field(parts)?,
        }),
        Head::Face => Some(Record::Face {
            a: field(parts)?,
            b: field(parts)?,
            c: field(parts)?,
        }),
        Head::Lay => Some(Record::Lay {
            what: field(parts)?,
        }),
        Head::Cast => Some(Record::Cast {
            what: field(parts)?,
            dx: field(parts)?,
            dy: field(parts)?,
            dz: field(parts)?,
        }),
    }
}

// The record of a line with this head whose fields are left, or none where the number of fields is another.
pub fn record_of<'a>(head: Head, parts: &mut Parts<'a>) -> Option<Record<'a>>
    ensures { MatchOption result (length (left parts.old) ≢ length (shape head)) (λ a. (head_of a ≡ head) × (left parts.old ≡ fields a)) }
{
    let record = next_record(head, parts)?;
    field(parts).is_none().then_some(record)
}
