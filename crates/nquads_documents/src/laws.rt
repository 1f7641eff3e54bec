//! What documents promise to their readers. These functions do nothing: their
//! contracts are theorems.

ghost use Rattle.nquads_documents.specs.Laws.{LinesRead, LinesApart, CanonicalRead};
ghost use Rattle.nquads_documents.specs.Laws.{CanonicalOnce, LinesAgain, DocumentsFound};
ghost use Rattle.nquads_documents.specs.Laws.{DocumentsAgain, DocumentsOnce};
ghost use Rattle.nquads_documents.specs.Laws.{DocumentFaultsFound, DocumentFaultsAgain};
ghost use Rattle.nquads_documents.specs.Laws.{DocumentOrFault, NeverBoth, FaultsOnce};
ghost use Rattle.nquads_text.specs.Faults.{AnyTermFault};

/// Printed lines are read as their statements, no line is the front of another, and a printed
/// document is read as its statements.
pub fn lines_are_read()
    ensures read { LinesRead }
    ensures apart { LinesApart }
    ensures canonical { CanonicalRead }
    ensures once { CanonicalOnce }
{}

/// What is read to its end is a document, and a document is read, with the same statements; a
/// printed line is one.
pub fn documents_are_read()
    ensures found { DocumentsFound }
    ensures again { DocumentsAgain }
    ensures once { DocumentsOnce }
    ensures line { LinesAgain }
{}

/// The fault that is met in a document is its first, and its first is met. A text has one exactly
/// where it is no document.
pub fn document_faults_are_met()
    ensures found { DocumentFaultsFound AnyTermFault }
    ensures again { DocumentFaultsAgain AnyTermFault }
    ensures once { FaultsOnce AnyTermFault }
    ensures some { DocumentOrFault AnyTermFault }
    ensures never_both { NeverBoth AnyTermFault }
{}
