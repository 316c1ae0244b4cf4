// How numbers, rows and answers are written.
ghost use Rattle.std.specs.Prelude.{◌≡◌, ◌<◌};

use std::fmt;
use tables::Said;

// Numbers, as 3,4,6, or none.
#[derive(Clone, Copy)]
pub struct Numbers<'a>(pub &'a [u32]);

impl fmt::Display for Numbers<'_> {
    fn fmt<W: fmt::Write>(&self, f: &mut fmt::Formatter<W>) -> fmt::Result {
        let Some((first, rest)) = self.0.split_first() else {
            return f.write_str("none");
        };
        write!(f, "{first}")?;
        for x in rest {
            write!(f, ",{x}")?;
        }
        Ok(())
    }
}

// Rows of a width, as (2,5,5) (4,7,7), or none.
#[derive(Clone, Copy)]
pub struct Rows<'a> {
    numbers: &'a [u32],
    width: usize,
    ghost wide: { 0 < width },
}

impl<'a> Rows<'a> {
    pub fn of(numbers: &'a [u32], width: usize) -> Self
        requires { 0 < width }
        ensures { (result.numbers.now ≡ numbers.now) × (result.width ≡ width) }
    {
        Rows { numbers, width }
    }
}

impl fmt::Display for Rows<'_> {
    fn fmt<W: fmt::Write>(&self, f: &mut fmt::Formatter<W>) -> fmt::Result {
        if self.numbers.is_empty() {
            return f.write_str("none");
        }
        for (k, row) in self.numbers.chunks(self.width).enumerate() {
            let gap = if 0 < k { " " } else { "" };
            write!(f, "{gap}({})", Numbers(row))?;
        }
        Ok(())
    }
}

// A refusal, as refused 5 at 0.
#[derive(Clone, Copy)]
pub struct Refused(pub Said);

impl fmt::Display for Refused {
    fn fmt<W: fmt::Write>(&self, f: &mut fmt::Formatter<W>) -> fmt::Result {
        write!(f, "refused {} at {}", self.0.number, self.0.place)
    }
}

// What is given, or the refusal.
#[derive(Clone, Copy)]
pub struct Answer<T>(pub Result<T, Said>);

impl<T: fmt::Display> fmt::Display for Answer<T> {
    fn fmt<W: fmt::Write>(&self, f: &mut fmt::Formatter<W>) -> fmt::Result {
        match &self.0 {
            Ok(given) => write!(f, "{given}"),
            Err(said) => write!(f, "{}", Refused(*said)),
        }
    }
}
