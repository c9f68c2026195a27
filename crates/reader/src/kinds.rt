// The kinds of records, and how long their bodies are.
ghost use Rattle.std.specs.Prelude.{◌≡◌, ◌≤◌};
ghost use Rattle.reader_rules.specs.Records.{body_length, message_length};

// By kind, from 0; 0 for a kind that is unknown.
const LENGTHS: [usize; 10] = [0, 21, 7, 3, 17, 4, 19, 33, 3, 7];

// The length of the body of a kind, 0 for an unknown one.
pub fn body_length(kind: u8) -> usize
    ensures { result ≡ body_length kind }
{
    if 9 < kind {
        return 0;
    }
    LENGTHS[kind as usize]
}

// The length of the message in a reply.
pub fn message_length(kind: u8) -> usize
    ensures { (result ≡ message_length kind) × (result ≤ 14) }
{
    if kind == 7 {
        return 14;
    }
    7
}
