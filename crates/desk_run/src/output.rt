// The lines of output.
ghost use Rattle.std.specs.Prelude.{[], ◌∷◌};
ghost use Rattle.replies.specs.Replies.{said_by};
ghost use Rattle.text.specs.Parts.{line_feed};
ghost use Rattle.text.specs.Output.{HasSpace, HasRoom, Appended};
ghost use Rattle.desk_text.specs.Output.{reply_text, said_text, answer_line, line_room};

use replies::{Answer, Refusal, Reply};
use text::output::Output;
use text::{LINE_FEED, TAB};

// The bytes of room for the longest line.
pub(crate) const LINE_ROOM: usize = 48;

// Writes a reply: 0 for done, `-` for absent, or the number of the refusal, which has two digits
// at most.
fn write_reply(reply: Result<Reply, Refusal>, output: &mut Output)
    requires { HasRoom (reply_text (said_by reply)) output.old }
    ensures { Appended (reply_text (said_by reply)) output.old output.new }
{
    match reply {
        Ok(Reply::Absent) => output.byte(b'-'),
        Ok(_) => output.byte(b'0'),
        Err(refusal) => output.decimal(u64::from(u32::from(refusal))),
    }
}

// Writes a field for the value, where the reply has one.
fn write_value(reply: Result<Reply, Refusal>, output: &mut Output)
    requires { HasRoom (said_text (said_by reply)) output.old }
    ensures { Appended (said_text (said_by reply)) output.old output.new }
{
    let Ok(reply) = reply else {
        return;
    };
    let Reply::Value(value) = reply else {
        return;
    };
    output.field(value);
}

// Writes a line of one byte.
pub(crate) fn write_mark(byte: u8, output: &mut Output)
    requires { HasSpace line_room output.old }
    ensures { Appended (byte ∷ line_feed ∷ []) output.old output.new }
{
    output.byte(byte);
    output.byte(LINE_FEED);
}

// Writes the line of an answer: the letter, the reply, the stores made, and the value.
pub(crate) fn write_answer(letter: u8, answer: Answer, output: &mut Output)
    requires { HasSpace line_room output.old }
    ensures { Appended (answer_line letter (said_by answer.reply) answer.stores) output.old output.new }
{
    output.byte(letter);
    output.byte(TAB);
    write_reply(answer.reply, output);
    output.field(u64::from(answer.stores));
    write_value(answer.reply, output);
    output.byte(LINE_FEED);
}
