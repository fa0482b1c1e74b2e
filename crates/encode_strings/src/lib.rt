// Actions with strings or with a list, as source 000's ActionEncoder writes them, over a lent output.
#![tactic(auto)]

ghost use Rattle.std.specs.Prelude.{false, ◌++◌};
ghost use Rattle.layout.specs.Numbers.{le16};
ghost use Rattle.layout.specs.Tree.{GetUrl};
ghost use Rattle.layout.specs.Payload.{zero_ended, headed};
ghost use Rattle.pcode.specs.Shown.{span_of, Held};
ghost use Rattle.encode_values.specs.Pieces.{action, flat_piece, written, strings_at, values_at, Room, Put};

use editions::MainBody;
use encode_values::{PushValues, Strings, string_of, write_list, write_measured_action};
use opcode::OpCode;
use pcode::Span;
use positions::{BytePosition, Spot};
use stores::{Low16, Store};
use writer::write_action_header;

// SetTarget and GotoLabel.
pub fn write_string_action(
    out: &mut [u8],
    m: &MainBody<'_>,
    pos: BytePosition,
    op: u8,
    s: Span,
) -> Spot
    requires { Held m.now s × Room (action op (zero_ended (span_of m.now s)) s.next) pos.0 out.old }
    ensures { Put (action op (zero_ended (span_of m.now s)) s.next) pos.0 out.old out.new result }
{
    let len = OpCode::string_len(s.len);
    write_measured_action(out, pos, op, len, string_of(m, s), s.next)
}

// Two strings.
pub fn write_get_url(
    out: &mut [u8],
    m: &MainBody<'_>,
    pos: BytePosition,
    url: Span,
    target: Span,
) -> Spot
    requires { Held m.now url × Held m.now target × Room (flat_piece (GetUrl (span_of m.now url) (span_of m.now target)) target.next) pos.0 out.old }
    ensures { Put (flat_piece (GetUrl (span_of m.now url) (span_of m.now target)) target.next) pos.0 out.old out.new result }
{
    let strings = (string_of(m, url), string_of(m, target));
    let len = OpCode::get_url_len(url.len, target.len);
    write_measured_action(out, pos, OpCode::GET_URL, len, strings, target.next)
}

// n values that stand at a place, as an action at a position. The header comes after the values: only then is its length known.
pub fn write_push(out: &mut [u8], m: &MainBody<'_>, n: usize, from: Spot) -> Spot
    requires { Room (written (λ q. headed false 0x96 q) (values_at m.now n from.at)) from.pos.0 out.old }
    ensures { Put (written (λ q. headed false 0x96 q) (values_at m.now n from.at)) from.pos.0 out.old out.new result }
{
    let start = from.pos.0 + OpCode::HEADER_LEN;
    let values = Spot {
        at: from.at,
        pos: BytePosition(start),
    };
    let end = write_list::<PushValues>(out, m, n, values);
    let len = OpCode::push_len(end.pos.0 - start);
    write_action_header(out, from.pos, OpCode::PUSH, len);
    end
}

// The same of n strings, behind their count: one function for both would be told the count by a flag.
pub fn write_constant_pool(out: &mut [u8], m: &MainBody<'_>, n: usize, from: Spot) -> Spot
    requires { Room (written (λ q. headed false 0x88 (le16 n ++ q)) (strings_at m.now n from.at)) from.pos.0 out.old }
    ensures { Put (written (λ q. headed false 0x88 (le16 n ++ q)) (strings_at m.now n from.at)) from.pos.0 out.old out.new result }
{
    let start = Low16(n).store(out, from.pos.0 + OpCode::HEADER_LEN);
    let strings = Spot {
        at: from.at,
        pos: BytePosition(start),
    };
    let end = write_list::<Strings>(out, m, n, strings);
    let len = OpCode::constant_pool_len(end.pos.0 - start);
    write_action_header(out, from.pos, OpCode::CONSTANT_POOL, len);
    end
}
