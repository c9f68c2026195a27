// The MB bytes as a part of the caller's buffer.
ghost use Rattle.std.specs.Prelude.{◌≡◌};
ghost use Rattle.frames_rules.specs.Reading.{mb_part};

// The seven MB bytes of a long reply, without a copy; an empty part of a buffer that is not 14 bytes long.
pub fn mb_part(buf: &[u8]) -> &[u8]
    ensures { result.now ≡ mb_part buf.now }
{
    if buf.len() != 14 {
        return &buf[0..0];
    }
    &buf[4..11]
}
