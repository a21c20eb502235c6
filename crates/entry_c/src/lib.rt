// The entry under its name for C, which include/tinoweala.h declares: one call of entry.
#![tactic(auto)]

ghost use Rattle.entry.specs.LabelText.{Promise};

#[unsafe(no_mangle)]
pub extern "C" fn tinoweala_label_text(text: &[u8], out: &mut [u8]) -> i64
    ensures { Promise text.now out.old result out.new }
{
    entry::tinoweala_label_text(text, out)
}
