//! Laws of what is generated.
ghost use Rattle.dj_generate.specs.Laws.{OneGeneratedText};

/// A configuration has at most one generated text.
pub fn one_text()
    ensures { OneGeneratedText }
{}
