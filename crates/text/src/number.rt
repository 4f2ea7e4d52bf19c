// Numbers of a job.
ghost use Rattle.std.specs.Prelude.{◌≡◌, ℕ, ◌<◌, ℤ, MatchOption};
ghost use Rattle.text.specs.Number.{Numeral, Spells};

// The number that one to six digits write, with no leading 0 but for 0 itself.
fn numeral(text: &[u8]) -> Option<u32>
    ensures { MatchOption result ((n : ℕ) → Numeral text.now n → ⊥) (λ n. Numeral text.now n) }
{
    if text.is_empty() || text.len() > 6 {
        return None;
    }
    if text[0] == b'0' && text.len() > 1 {
        return None;
    }
    let mut value = 0;
    for b in text {
        value = value * 10 + char::from(*b).to_digit(10)?;
    }
    Some(value)
}

// The number that a field spells, or none.
pub fn number(text: &[u8]) -> Option<i32>
    ensures { MatchOption result ((z : ℤ) → Spells text.now z → ⊥) (λ z. Spells text.now z) }
{
    match text {
        [b'-', digits @ ..] => match numeral(digits)? {
            0 => None,
            n => Some(-(n as i32)),
        },
        _ => Some(numeral(text)? as i32),
    }
}
