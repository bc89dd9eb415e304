//! The greatest number of live statuses of a page.
ghost use Rattle.std.specs.Prelude.{◌≡◌};
ghost use Rattle.pe_output.specs.OutputText.{output_text};
ghost use Rattle.pe_long_rows.specs.MostStatusesText.{script, output};

use pe_laws::history_laws;

/// The output text of the script's bytes is the bytes of the output.
pub fn row_most_statuses()
    ensures { output_text 5000 script ≡ output }
{
    history_laws();
}
