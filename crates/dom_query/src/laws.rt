//! Facts about every run of a script over markup. The functions do nothing at run time.

ghost use Rattle.std.specs.Prelude.{ℕ, List, Option};
ghost use Rattle.dom_query.specs.Drive.{Drove, StatusMeans};
ghost use Rattle.dom_query.specs.Out.{HasOneOutput};
ghost use Rattle.dom_query.specs.ReadBack.{EndReadsBack, ReadsBack};
ghost use Rattle.dom_script.specs.declared.script.Command.{Command};

/// The script and the markup determine the text that `run` writes and whether it succeeds or with
/// which error it ends.
pub fn one_output()
    ensures { (markup script : List ℕ) → HasOneOutput markup script }
{
    // Called for their contracts, here and below; the laws do nothing at run time.
    dom_markup::laws::one_reading();
    dom_select::laws::one_reading();
    dom_select::laws::one_selection();
    dom_sanitize::laws::one_clean();
}

/// If the script is the single line `document`, and the document of the markup is plain (see
/// `IsPlain` in dom_markup), then a run that succeeds writes a text that parses to the same tree,
/// and a line feed.
pub fn document_reads_back()
    ensures { (markup text : List ℕ) → ReadsBack markup text }
{
    dom_markup::laws::one_reading();
    dom_select::laws::one_reading();
    dom_markup::laws::plain::documents_are_forests();
    dom_markup::laws::plain::plain_documents_are_spelled();
}

/// If a script ends with the line `document`, then a run that succeeds writes the text of the lines
/// before it and then one more line. If those lines leave a plain document, the last line parses to
/// the same tree.
pub fn last_document_reads_back()
    ensures { (m s : List ℕ) (cs : List Command) (text : List ℕ) → EndReadsBack m s cs text }
{
    dom_markup::laws::one_reading();
    dom_select::laws::one_reading();
    dom_markup::laws::plain::plain_documents_are_spelled();
}

/// What the status that `drive` returns says: with 0 everything was done; with 2 the script is bad;
/// with 3 the markup is bad; with 64 there isn't exactly one argument.
pub fn status_determines_ending()
    ensures { (words : List (List ℕ)) (known old new err reported : Option (List ℕ)) (status : ℕ)
        → Drove words known old new err reported status → StatusMeans words known old new status }
{}
