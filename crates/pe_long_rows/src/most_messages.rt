//! The greatest number of messages of a page that are not delivered.
ghost use Rattle.std.specs.Prelude.{◌≡◌};
ghost use Rattle.pe_output.specs.OutputText.{output_text};
ghost use Rattle.pe_long_rows.specs.MostMessagesText.{script, output};

use pe_laws::history_laws;

/// The output text of the script's bytes is the bytes of the output.
pub fn row_most_messages()
    ensures { output_text 5000 script ≡ output }
{
    history_laws();
}
