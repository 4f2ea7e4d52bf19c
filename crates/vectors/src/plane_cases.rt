// Cases of planes: calls on a linear or a packed plane, through a frame or not.
use crate::words::{Numbers, told};
use anyhow::{Context, bail};
use geometry::units::{Column, Row, Step};
use planes::frame::{Cutout, Frame};
use planes::linear::LinearPlane;
use planes::packed::PackedPlane;
use planes::plane::Plane;
use std::alloc::{AllocError, Global};
use std::fmt::Display;

// A change of a plane or a question to it.
#[derive(Drop)]
enum Call {
    Wipe(Step),
    Raise(Column, Row, Step),
    More(Column, Row),
    Less(Column, Row),
    Height(Column, Row),
    Count(Column, Row),
}

// A pixel's column or row. One function for this and `size` would take the type, the limit and the words of the error: no plainer.
fn coordinate(numbers: &mut Numbers, what: &str) -> anyhow::Result<u16> {
    match u16::try_from(numbers.size()?) {
        Ok(number) if number <= 1000 => Ok(number),
        _ => bail!("not a {what}"),
    }
}

impl Call {
    // 0 wipe g, 1 raise i j v, 2 more i j, 3 less i j, 4 height i j, and any other number count i j: the file of cases is numbers.
    fn read(numbers: &mut Numbers) -> anyhow::Result<Call> {
        let kind = numbers.number()?;
        if kind == 0 {
            return Ok(Call::Wipe(Step(numbers.number()?)));
        }
        let column = Column(coordinate(numbers, "column")?);
        let row = Row(coordinate(numbers, "row")?);
        Ok(match kind {
            1 => Call::Raise(column, row, Step(numbers.number()?)),
            2 => Call::More(column, row),
            3 => Call::Less(column, row),
            4 => Call::Height(column, row),
            _ => Call::Count(column, row),
        })
    }

    // Makes the change, or writes the answer of the question.
    fn perform<P: Plane>(self, plane: &mut P, text: &mut String) -> anyhow::Result<()> {
        match self {
            Call::Wipe(ground) => plane.wipe(ground),
            Call::Raise(column, row, to) => plane.raise(column, row, to),
            Call::More(column, row) => plane.more(column, row),
            Call::Less(column, row) => plane.less(column, row),
            Call::Height(column, row) => {
                put(text, plane.height(column, row).map(|height| height.0))?
            }
            Call::Count(column, row) => put(text, plane.count(column, row))?,
        }
        Ok(())
    }
}

// Writes what a pixel holds, or that there is none.
fn put<T: Display + Drop>(text: &mut String, held: Option<T>) -> Result<(), AllocError> {
    match held {
        Some(held) => write!(text, "{held} "),
        None => text.push_str("none "),
    }
}

// The window, the modulus, and the height and count of each pixel: 99999 for none, as the file of cases has it.
fn shown<P: Plane>(plane: &P, text: &mut String) -> anyhow::Result<()> {
    let w = plane.window();
    write!(text, "window {} {} {} {}", w.c0.0, w.r0.0, w.c1.0, w.r1.0)?;
    write!(text, " modulus {}", plane.modulus())?;
    for j in 0..plane.rows() {
        for i in 0..plane.width() {
            let Step(height) = plane.height(Column(i), Row(j)).unwrap_or(Step(99999));
            let count = plane.count(Column(i), Row(j)).unwrap_or(99999);
            write!(text, " {height} {count}")?;
        }
    }
    Ok(())
}

fn performed<P: Plane>(
    heap: Global,
    plane: &mut P,
    numbers: &mut Numbers,
) -> anyhow::Result<String> {
    let count = numbers.size()?;
    let mut text = String::new(heap);
    for _ in 0..count {
        Call::read(numbers)?.perform(plane, &mut text)?;
    }
    shown(plane, &mut text)?;
    Ok(text)
}

// The calls, through a frame where the next number is 1; four numbers follow then.
fn framed<P: Plane + Drop>(
    heap: Global,
    mut plane: P,
    numbers: &mut Numbers,
) -> anyhow::Result<String> {
    if numbers.number()? == 0 {
        return performed(heap, &mut plane, numbers);
    }
    let cutout = Cutout {
        c0: numbers.number()?,
        r0: numbers.number()?,
        c1: numbers.number()?,
        r1: numbers.number()?,
    };
    let mut frame = Frame::over(plane, cutout);
    performed(heap, &mut frame, numbers)
}

// line width rows, the heights, the counts, the frame, the calls
pub(crate) fn linear(heap: Global, numbers: &mut Numbers) -> anyhow::Result<String> {
    let width = numbers.size()?;
    let rows = numbers.size()?;
    let size = width.saturating_mul(rows);
    let mut heights = numbers.list(heap, size, |numbers| {
        i32::try_from(numbers.number()?).ok().context("not 32 bits")
    })?;
    let mut counts = numbers.list(
        heap,
        size,
        |numbers| Ok((numbers.natural()? & 65535) as u16),
    )?;
    let plane = LinearPlane::new(heights.as_mut_slice(), counts.as_mut_slice(), width, rows);
    framed(heap, plane, numbers)
}

// pack width rows, the stored numbers, the frame, the calls
pub(crate) fn packed(heap: Global, numbers: &mut Numbers) -> anyhow::Result<String> {
    let width = numbers.size()?;
    let rows = numbers.size()?;
    let size = width.saturating_mul(rows);
    let mut pixels = numbers.list(heap, size, Numbers::natural)?;
    let plane = PackedPlane::new(pixels.as_mut_slice(), width, rows);
    framed(heap, plane, numbers)
}

// check, then width, rows and the length of the list or lists (0 for no second one)
pub(crate) fn check(heap: Global, numbers: &mut Numbers) -> anyhow::Result<String> {
    let width = numbers.natural()? as usize;
    let rows = numbers.natural()? as usize;
    let lists = numbers.size()?;
    let first = numbers.size()?;
    let answer = if lists == 1 {
        let pixels = vec![in heap; 0u32; first]?;
        PackedPlane::check(pixels.as_slice(), width, rows)
    } else {
        let second = numbers.size()?;
        let heights = vec![in heap; 0i32; first]?;
        let counts = vec![in heap; 0u16; second]?;
        LinearPlane::check(heights.as_slice(), counts.as_slice(), width, rows)
    };
    told(heap, answer.and(Ok("fit")))
}
