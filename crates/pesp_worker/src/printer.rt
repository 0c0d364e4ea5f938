//! The text of replies.

ghost use Rattle.std.specs.Prelude.{◌≡◌, ◌++◌, codes};
ghost use Rattle.std.specs.List.{flat_map};
ghost use Rattle.pesp_stream.specs.Printing.{Sending, Sends};
ghost use Rattle.pesp_worker.specs.Texts.{reply_words, reply_line};

use crate::grafted::Reply;
use pesp_board::GiveRefusal;
use pesp_cert::Number;
use pesp_stream::{Output, Printed};

/// What became of a work, in words.
fn reply_text(given: Result<(), GiveRefusal>) -> &'static str
    ensures { result.now ≡ reply_words given }
{
    match given {
        Ok(()) => " taken\n",
        Err(GiveRefusal::UnknownJob) => " refused 1 UnknownJob\n",
        Err(GiveRefusal::AlreadyGiven) => " refused 2 AlreadyGiven\n",
        Err(GiveRefusal::NotValid) => " refused 3 NotValid\n",
        Err(GiveRefusal::Memory) => " refused 4 Memory\n",
        Err(GiveRefusal::TooLarge) => " refused 5 TooLarge\n",
    }
}

fn print_reply<O: Output>(reply: &Reply, out: &mut O)
    ensures { Sends (O.sending out.old) (O.sending out.new) (reply_line reply.now) }
{
    ("job ", Number(reply.job), reply_text(reply.given)).print(out);
}

#[tactic(auto, using(pesp_stream::proofs::Printing::sends_nothing, pesp_stream::proofs::Printing::sends_next, pesp_stream::proofs::Printing::sends_all))]
fn print_replies<O: Output>(replies: &[Reply], out: &mut O)
    ensures { Sends (O.sending out.old) (O.sending out.new) (flat_map reply_line replies.now) }
{
    for reply in replies {
        print_reply(reply, out);
    }
}

/// A line for each reply: the number of the job, and whether the work was taken.
#[derive(Clone, Copy)]
pub struct RepliesText<'a>(pub &'a [Reply]);

impl Printed for RepliesText<'_> {
    ghost use Rattle.std.specs.List.{flat_map};
    ghost use Rattle.pesp_worker.specs.Texts.{reply_line};

    ghost text = { λ t. flat_map reply_line t.0.now };

    fn print<O: Output>(&self, out: &mut O) {
        print_replies(self.0, out);
    }
}
