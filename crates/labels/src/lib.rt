// What can be the label of an hour: its bytes.
#![tactic(auto)]

ghost use Rattle.std.specs.Prelude.{◌≡◌};
ghost use Rattle.labels.specs.Labels.{label_byte, label_text};

// Not empty, no control byte, and in a sheet neither a semicolon nor a quote.
pub fn is_label(label: &[u8], sheet: bool) -> bool
    ensures { result ≡ label_text sheet label.now }
{
    !label.is_empty() && label.iter().all(|&byte| fits(byte, sheet))
}

#[tactic(auto, unfolding(crate::specs::Labels::label_byte))]
fn fits(byte: u8, sheet: bool) -> bool
    ensures { result ≡ label_byte sheet byte }
{
    b' ' <= byte && byte != 127 && !(sheet && matches!(byte, b';' | b'"'))
}
