// The correction of a reply, on trial in a buffer of its own: the caller's is written when the format is the expected one.
ghost use Rattle.std.specs.Prelude.{◌≡◌, ◌<◌, true, length};
ghost use Rattle.parity_rules.specs.Answers.{buffers, fix_said};
ghost use Rattle.parity_rules.specs.Correction.{sized};
ghost use Rattle.frames_rules.specs.Reading.{format_of};
ghost use Rattle.station_rules.specs.Replies.{value_in, corrected_as};

use refusals::Refusal;

// The format of a message, its bits 1 to 5.
fn format_of(m: &[u8]) -> u8
    requires { 3 < length m.now }
    ensures { result ≡ format_of m.now }
{
    m[0] / 8
}

// AC or ID of a message, its bits 20 to 32.
pub(crate) fn value_in(m: &[u8]) -> u16
    requires { 3 < length m.now }
    ensures { result ≡ value_in m.now }
{
    let a = m[2] as u16;
    let b = m[3] as u16;
    a % 32 * 256 + b
}

// A correction, and 14 where its format is not the expected one; a refusal leaves no promise of the buffers.
fn on_trial(
    msg: &[u8],
    marks: &[u8],
    address: u32,
    limit: u32,
    format: u8,
    out: &mut [u8],
    places: &mut [u8],
) -> Result<u32, Refusal>
    requires { 3 < length out.old }
    ensures { fix_said result (buffers out.new places.new)
        ≡ corrected_as format msg.now marks.now address limit
        (buffers out.old places.old) (buffers out.new places.new) }
{
    let flips = parity::correct(msg, marks, address, limit, out, places)?;
    if format_of(out) != format {
        return Err(Refusal::Format);
    }
    Ok(flips)
}

// The correction of a message that must have the expected format. Nothing is written but what is taken.
pub(crate) fn correct_as(
    msg: &[u8],
    marks: &[u8],
    address: u32,
    limit: u32,
    format: u8,
    out: &mut [u8],
    places: &mut [u8],
) -> Result<u32, Refusal>
    requires { sized (length msg.now) (length marks.now) (length out.old) (length places.old) ≡ true }
    ensures { fix_said result (buffers out.new places.new)
        ≡ corrected_as format msg.now marks.now address limit
        (buffers out.old places.old) (buffers out.old places.old) }
{
    let n = msg.len();
    let mut corrected = [0u8; 14];
    let mut flipped = [0u8; 14];
    let r = on_trial(
        msg,
        marks,
        address,
        limit,
        format,
        &mut corrected[..n],
        &mut flipped[..n],
    );
    let is_refused = r.is_err();
    if is_refused {
        return r;
    }
    out.copy_from_slice(&corrected[..n]);
    places.copy_from_slice(&flipped[..n]);
    r
}
