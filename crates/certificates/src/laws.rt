ghost use Rattle.certificates.specs.Forms.{FormsAreSpelled};

/// A law, and nothing at run time: a line has a form of a version exactly where it is the text of that
/// form.
pub fn forms_are_spelled()
    ensures { FormsAreSpelled }
{}
