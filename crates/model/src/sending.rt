// A reply in its 7 or 14 bytes, or none.
ghost use Rattle.std.specs.Prelude.{◌≡◌, ◌≤◌, length, replicate};
ghost use Rattle.frames_rules.specs.Building.{replying, all_call_replying};
ghost use Rattle.frames_rules.specs.Formats.{length_of};
ghost use Rattle.model_rules.specs.Replies.{sending};
ghost use Rattle.model_rules.specs.Said.{bytes_of, sent_as};

use model_rules::Sent;

// A reply's bytes.
pub fn bytes(s: &Sent) -> &[u8]
    ensures { (result.now ≡ bytes_of s.now) × (7 ≤ length result.now) × (length result.now ≤ 14) }
{
    match s {
        Sent::Short(b) => b,
        Sent::Long(b) => b,
    }
}

// A surveillance reply of 7 bytes.
fn send_short(df: u32, fs: u32, dr: u32, um: u32, value: u32, mb: u64, address: u32) -> Option<Sent>
    ensures { sent_as result ≡ sending (replying df fs dr um value mb address (replicate 7 0)) }
{
    let mut b = [0; 7];
    frames::reply(df, fs, dr, um, value, mb, address, &mut b).ok()?;
    Some(Sent::Short(b))
}

// A surveillance reply of 14 bytes.
fn send_long(df: u32, fs: u32, dr: u32, um: u32, value: u32, mb: u64, address: u32) -> Option<Sent>
    ensures { sent_as result ≡ sending (replying df fs dr um value mb address (replicate 14 0)) }
{
    let mut b = [0; 14];
    frames::reply(df, fs, dr, um, value, mb, address, &mut b).ok()?;
    Some(Sent::Long(b))
}

// A surveillance reply of its format's length.
pub(crate) fn send(
    df: u32,
    fs: u32,
    dr: u32,
    um: u32,
    value: u32,
    mb: u64,
    address: u32,
) -> Option<Sent>
    ensures { sent_as result ≡ sending (replying df fs dr um value mb address (replicate (length_of df) 0)) }
{
    if df == 20 || df == 21 {
        return send_long(df, fs, dr, um, value, mb, address);
    }
    send_short(df, fs, dr, um, value, mb, address)
}

// An all-call reply.
pub(crate) fn send_all_call(ca: u32, address: u32, cl: u32, ic: u32) -> Option<Sent>
    ensures { sent_as result ≡ sending (all_call_replying ca address cl ic (replicate 7 0)) }
{
    let mut b = [0; 7];
    frames::all_call_reply(ca, address, cl, ic, &mut b).ok()?;
    Some(Sent::Short(b))
}
