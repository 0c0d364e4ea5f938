//! What is told of a conflict.

ghost use Rattle.std.specs.Prelude.{◌≡◌};
ghost use Rattle.pesp_report_run.specs.Told.{told_of, told_status};

use itoa::Buffer;
use pesp_stream::{Output, Printed};

/// What was found: a list was written, of so many activities of so many, each of which is needed, or perhaps not; the instance
/// has a timetable; or so many steps decided nothing.
#[derive(Clone, Copy, PartialEq, Eq)]
pub enum Told {
    /// The listed activities have no timetable together, and without any one of them the others have one.
    Irreducible { listed: u32, of: u32 },
    /// The listed activities have no timetable together; perhaps fewer have none.
    Conflict { listed: u32, of: u32 },
    /// The instance has a timetable.
    Timetable,
    /// So many steps decided nothing.
    Undecided { steps: u32 },
}

/// What is told of a list.
pub(crate) fn told_of(listed: u32, of: u32, each_needed: bool) -> Told
    ensures { result ≡ told_of listed of each_needed }
{
    if each_needed {
        Told::Irreducible { listed, of }
    } else {
        Told::Conflict { listed, of }
    }
}

/// A number in plain digits.
#[derive(Clone, Copy)]
struct Number(u32);

impl Printed for Number {
    ghost use Rattle.std.specs.Prelude.{decimal};

    ghost text = { λ n. decimal n.0 };

    fn print<O: Output>(&self, out: &mut O) {
        let mut buffer = Buffer::new();
        out.put(buffer.format(self.0).as_bytes());
    }
}

/// What is told as a line, without the line feed at its end. It needs no memory, so that it can't be missing behind a list.
impl Printed for Told {
    ghost use Rattle.pesp_report_run.specs.Told.{told_text};

    ghost text = { λ told. told_text told };

    fn print<O: Output>(&self, out: &mut O) {
        match *self {
            Told::Irreducible { listed, of } => {
                (
                    Number(listed),
                    " of ",
                    Number(of),
                    " activities conflict; each is needed",
                )
                    .print(out);
            }
            Told::Conflict { listed, of } => {
                (
                    Number(listed),
                    " of ",
                    Number(of),
                    " activities conflict; perhaps fewer do",
                )
                    .print(out);
            }
            Told::Timetable => out.put(b"no conflict was found: the instance has a timetable"),
            Told::Undecided { steps } => {
                ("no conflict was found within ", Number(steps), " steps").print(out);
            }
        }
    }
}

/// The exit status of the program: 0 for a list, 1 for none.
pub fn status_of_told(told: Told) -> u8
    ensures { result ≡ told_status told }
{
    match told {
        Told::Irreducible { .. } | Told::Conflict { .. } => 0,
        Told::Timetable => 1,
        Told::Undecided { .. } => 1,
    }
}
