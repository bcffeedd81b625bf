//! What holds of the definitions: a public function with an empty body, whose clause is the law.
ghost use Rattle.smap_report.specs.Laws.{FindingsAreLines};

/// A finding is one line in the form for people, in GNU's, in GitHub's, in JSON and within JUnit's XML: no
/// file and no message ends its line early, or begins another. So none is taken for another finding, or for a
/// command.
pub fn findings_are_lines()
    ensures { FindingsAreLines }
{}
