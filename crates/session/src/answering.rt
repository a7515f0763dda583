ghost use Rattle.std.specs.Prelude.{◌≡◌, ◌≤◌, length, vec_capacity};
ghost use Rattle.line_proto.specs.Forms.{item_of};
ghost use Rattle.session.specs.Sessions.{AnswersItem};
ghost use Rattle.session.specs.Steps.{IsRendered};

use funnel_io::MAX_LINE_LEN;
use funnel_model::Reply;
use line_proto::{Service, parse_line, reply_text};

/// The room that a reply's text needs, where it is no list.
pub(crate) const TEXT_ROOM: usize = 256;

/// The service's reply to a line that is not too long, or the refusal of a line that has no form.
pub(crate) fn reply_to<S: Service>(service: &mut S, line: &[u8]) -> Reply
    requires { length line.now ≤ MAX_LINE_LEN }
    ensures caller { S.caller service.new ≡ S.caller service.old }
    ensures answers { AnswersItem (S.caller service.old) (S.front service.old) (item_of line.now) result (S.front service.new) }
{
    match parse_line(line) {
        Some(request) => service.call(&request),
        None => Reply::Line,
    }
}

/// Sets `text` to the reply's line, or to that of a want of memory where none is found for a list.
pub(crate) fn render(reply: &Reply, text: &mut Vec<u8>)
    requires { TEXT_ROOM ≤ vec_capacity text.old }
    ensures text { IsRendered reply.now (vec_capacity text.old) text.new.items }
    ensures room { TEXT_ROOM ≤ vec_capacity text.new }
{
    if reply_text(reply, text).is_ok() {
        return;
    }
    if reply_text(&Reply::Memory, text).is_err() {
        unreachable!()
    }
}
