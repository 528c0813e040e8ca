// Many plans on one card.
ghost use Rattle.capi.specs.Lines.{JudgesMany};

// Judging the lines of lent bytes, three numbers a plan in `replies`, as many plans as it has room for: 0, and how many, the bytes they took, 0; or 21 to 26,
// and nothing is written.
#[unsafe(no_mangle)]
pub extern "C" fn pier_judge_lines(
    card: &[u8],
    lines: &[u8],
    replies: &mut [u64],
    out: &mut [u64; 3],
) -> u64
    ensures { JudgesMany card.now lines.now replies.old replies.new result out.new }
{
    numbers::counted(plans::judge_lines(card, lines, replies), out)
}
