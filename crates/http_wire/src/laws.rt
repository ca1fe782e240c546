ghost use Rattle.std.specs.Prelude.{◌≡◌, ◌<◌, ◌≤◌, ◌+◌, ◌^◌, length, true};
ghost use Rattle.http_wire.specs.Answers.{OneAnswer};
ghost use Rattle.http_wire.specs.EmptyLine.{IsHeadLength};
ghost use Rattle.http_wire.specs.ReadBack.{AreItsReply, AreOneMessage, call_says};
ghost use Rattle.http_wire.specs.ReplyAnswers.{OneReply};
ghost use Rattle.http_wire.specs.Writing.{call_bytes, call_head, can_be_sent_where_there, has_reason, is_field_value, is_target, is_value_where_there, response_bytes, response_head};

use crate::{Field, Response};

/// A law, with nothing to run: the same bytes give one message or fault and leave one rest, in whatever
/// pieces they come. Only a source that failed, want of memory, and the number of bytes that were read
/// where no head ends within its limit, depend on more.
pub fn the_same_bytes_give_one_answer()
    ensures { OneAnswer }
{}

/// A law, with nothing to run: the same bytes give one reply or fault, in whatever pieces they come. Only a
/// source that failed, want of memory, and the number of bytes that were taken in a body whose length is
/// not declared or where no head ends within its limit, depend on more.
pub fn the_same_bytes_give_one_reply()
    ensures { OneReply }
{}

/// A law, with nothing to run: the first empty line of a response that is written is the one before its
/// body, so nothing in its values ends the head sooner. The status and the length fit 64 bits, as each does.
pub fn a_response_has_one_head(response: &Response)
    requires status { response.now.status < 2 ^ 64 }
    requires body { length response.now.body < 2 ^ 64 }
    requires allow { is_value_where_there response.now.allow ≡ true }
    requires cache_control { is_value_where_there response.now.cache_control ≡ true }
    ensures { IsHeadLength (response_bytes response.now) (length (response_head response.now) + 2) }
{}

/// A law, with nothing to run: the first empty line of a call that is written is the one before its body,
/// so no path, host or id ends the head sooner. The length fits 64 bits, as each does.
pub fn a_call_has_one_head(path: &str, host: &str, id: &Option<Field>, body: &[u8])
    requires body { length body.now < 2 ^ 64 }
    requires path { is_target path.now ≡ true }
    requires host { is_field_value host.now ≡ true }
    requires id { can_be_sent_where_there id.now ≡ true }
    ensures { IsHeadLength (call_bytes path.now host.now id.now body.now)
        (length (call_head path.now host.now id.now (length body.now)) + 2) }
{}

/// A law, with nothing to run: `read_message` reads a call that is written as one message, with this target,
/// these fields and this body, and leaves what follows it for the next one. The head and the body are within
/// the limits of a message.
pub fn a_call_is_read_back(path: &str, host: &str, id: &Option<Field>, body: &[u8])
    requires head { length (call_head path.now host.now id.now (length body.now)) + 2 ≤ 16384 }
    requires body { length body.now ≤ 1048576 }
    requires path { is_target path.now ≡ true }
    requires host { is_field_value host.now ≡ true }
    requires id { can_be_sent_where_there id.now ≡ true }
    ensures { AreOneMessage (call_bytes path.now host.now id.now body.now)
        (call_says path.now host.now id.now (length body.now)) body.now }
{}

/// A law, with nothing to run: `read_reply_message` reads a response that is written as a reply with its
/// status, `cache-control` and body, whatever follows. The head and the body are within the limits of a reply.
pub fn a_response_is_read_back(response: &Response)
    requires head { length (response_head response.now) + 2 ≤ 16384 }
    requires body { length response.now.body ≤ 4194304 }
    requires status { has_reason response.now.status ≡ true }
    requires allow { is_value_where_there response.now.allow ≡ true }
    requires cache_control { is_value_where_there response.now.cache_control ≡ true }
    ensures { AreItsReply (response_bytes response.now) response.now }
{}
