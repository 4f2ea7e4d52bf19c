// What a line gives a call: its numbers, taken one after another, and how an answer is written.
use anyhow::bail;
use geometry::facet::Facet;
use geometry::light::Run;
use geometry::units::Point;
use std::alloc::Global;
use std::fmt;
use std::fmt::Display;
use std::str::SplitWhitespace;
use std::vec::IntoIter;

// The numbers of a line that are still to be taken. The heap is passed beside them, as to all that allocates: kept in here, each call would
// only take it out again.
#[derive(Drop)]
pub struct Numbers(IntoIter<i64>);

impl Numbers {
    // The words that are left of a line, each a number.
    pub(crate) fn parse(heap: Global, words: SplitWhitespace<'_>) -> anyhow::Result<Numbers> {
        // a loop: `try_collect` would hand on each number in a result with room for an error, which is copied
        let mut list = Vec::new(heap);
        for word in words {
            list.push(word.parse::<i64>()?)?;
        }
        Ok(Numbers(list.into_iter()))
    }

    pub(crate) fn number(&mut self) -> anyhow::Result<i64> {
        // a match and no `context`, which fills and copies the room for an error at each number
        match self.0.next() {
            Some(number) => Ok(number),
            None => bail!("a number is missing"),
        }
    }

    // A number of places or of things.
    pub(crate) fn size(&mut self) -> anyhow::Result<usize> {
        match usize::try_from(self.number()?) {
            Ok(size) if size <= 100_000 => Ok(size),
            _ => bail!("not a size"),
        }
    }

    // A number of 32 bits; one outside is given as the greatest.
    pub(crate) fn natural(&mut self) -> anyhow::Result<u32> {
        Ok(u32::try_from(self.number()?).unwrap_or(u32::MAX))
    }

    pub(crate) fn point(&mut self) -> anyhow::Result<Point> {
        Ok(Point::new(self.number()?, self.number()?, self.number()?))
    }

    pub(crate) fn facet(&mut self) -> anyhow::Result<Facet> {
        Ok(Facet {
            a: self.point()?,
            b: self.point()?,
            c: self.point()?,
        })
    }

    pub(crate) fn run(&mut self) -> anyhow::Result<Run> {
        Ok(Run {
            dx: self.number()?,
            dy: self.number()?,
            dz: self.number()?,
        })
    }

    // So many items, each taken by the same call.
    pub(crate) fn list<T: Drop, F: FnMut(&mut Numbers) -> anyhow::Result<T>>(
        &mut self,
        heap: Global,
        count: usize,
        mut take: F,
    ) -> anyhow::Result<Vec<T>>
        requires { F.IsAlwaysCallable take }
    {
        let mut list = Vec::new(heap);
        for _ in 0..count {
            list.push(take(self)?)?;
        }
        Ok(list)
    }
}

// Numbers with a space between.
#[derive(Drop)]
pub(crate) struct Spaced<const N: usize>(pub(crate) [i64; N]);

impl<const N: usize> Display for Spaced<N> {
    fn fmt<W: fmt::Write>(&self, f: &mut fmt::Formatter<W>) -> fmt::Result {
        for (place, number) in self.0.iter().enumerate() {
            if place > 0 {
                write!(f, " ")?;
            }
            write!(f, "{number}")?;
        }
        Ok(())
    }
}

// What is written for an answer: its value, or why there is none.
pub(crate) fn told<T: Display + Drop, E: Display + Drop>(
    heap: Global,
    answer: Result<T, E>,
) -> anyhow::Result<String> {
    let text = match answer {
        Ok(value) => format!(in heap; "{value}")?,
        Err(refusal) => format!(in heap; "{refusal}")?,
    };
    Ok(text)
}
