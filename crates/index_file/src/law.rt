//! Worked files.
ghost use Rattle.index_file.specs.Rows.{ThreeDocuments, NoDocuments, Damaged, OtherIndex};

/// A law, with nothing to run: what some files of few bytes tell.
pub fn rows_hold()
    ensures three_documents { ThreeDocuments }
    ensures no_documents { NoDocuments }
    ensures damaged { Damaged }
    ensures other_index { OtherIndex }
{}
