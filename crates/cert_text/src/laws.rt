ghost use Rattle.cert_text.specs.Laws.{TextsAreRead, OnlyTextsAreRead, TextsAreOne, FaultsAreFinal};

/// A law, and nothing at run time: the text of a well-formed certificate reads as that certificate.
pub fn texts_are_read()
    ensures { TextsAreRead }
{}

/// A law, and nothing at run time: what reads as a certificate is the text of it, and it is well formed.
pub fn only_texts_are_read()
    ensures { OnlyTextsAreRead }
{}

/// A law, and nothing at run time: well-formed certificates with equal texts are equal.
pub fn texts_are_one()
    ensures { TextsAreOne }
{}

/// A law, and nothing at run time: no text of a well-formed certificate begins with the lines up to one that
/// is refused and has a line feed.
pub fn faults_are_final()
    ensures { FaultsAreFinal }
{}
