//! Replies whose text is one line. The functions here show that and do nothing.

ghost use Rattle.std.specs.Prelude.{IsTrue};
ghost use Rattle.std.specs.List.{All};
ghost use Rattle.bd_script.specs.Lines.{HasNoNewline};
ghost use Rattle.bd_script.specs.Replies.{AreListed, IsNamed, ListsNames, line_reply_text};

use bd_command::{Listed, Reply};
use bd_script::LineReply;

/// The text of a reply has no newline.
pub fn is_one_line(said: &LineReply)
    ensures { HasNoNewline (line_reply_text said.now) }
{
    lists_names(said);
}

// What a reply lists are names.
fn lists_names(said: &LineReply)
    ensures { ListsNames said.now }
{
    match said {
        LineReply::Command(reply) => are_listed(reply),
        LineReply::Unread(_)
        | LineReply::Walk { .. }
        | LineReply::Done
        | LineReply::Free { .. }
        | LineReply::Full { .. }
        | LineReply::Stopped => {}
    }
}

// The same of the reply to a command.
fn are_listed(reply: &Reply)
    ensures { AreListed reply.now }
{
    match reply {
        Reply::Names(listing) => are_named(listing.names.as_slice()),
        Reply::Done | Reply::Bytes(_) | Reply::Dir(_) | Reply::File(_, _) | Reply::Refused(_) => {}
    }
}

// The same of a listing.
fn are_named(names: &[Listed])
    ensures { All IsNamed names.now }
{
    for listed in names {
        is_named(listed);
    }
}

// What stands in a listing is a name.
fn is_named(listed: &Listed)
    ensures { IsNamed listed.now }
{
    let _text = listed.name.as_bytes();
}
