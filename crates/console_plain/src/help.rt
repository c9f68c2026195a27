// The line `help`.
ghost use Rattle.text_rules.specs.Put.{Put};
ghost use Rattle.console_rules.specs.Help.{help_text};

// The words of the console, one line each.
pub(crate) fn put_help(out: &mut [u8]) -> usize
    ensures { Put help_text 0 out.old out.new result }
{
    text::put_bytes(
        out,
        0,
        b"remainder HEX\noverlay NUMBER\ncorrect HEX MARKS OVERLAY LIMIT\n\
        build UF PC RR DI SD MA ADDRESS\nallcall PR IC CL\nup HEX\ndown HEX\ncode HEX CL IC PERMIT\nfeet AC\nac FEET\n\
        model ADDRESS AC ID FS CA\nqueue HEX\nsend TIME DRAW HEX\nstate\n\
        setup L R LIMIT G0 .. G7 C0 .. C7\ntarget ADDRESS NEAR FAR\nremove ADDRESS\nmove ADDRESS NEAR FAR\n\
        request UNIT ADDRESS UF PC RR DI SD MA\nplan TAG\nreply ENTRY TAG HEX MARKS\nreport ADDRESS\ntargets\nentries\n\
        explain NUMBER\nquit\n",
    )
}
