//! Laws of what is found of texts that are read as drafts. Each function does nothing: its contract is the law.
ghost use Rattle.reply_answers.specs.WholeDrafts.{ExplainedAsRecord, ComparedAsRecords};

/// What is reported of a record that is read as a draft, and what is found of two such records, is what is found of the records; `explain` looks for no likely
/// repair of it.
#[tactic(auto, using(crate::proofs::AsRecords::explained_as_record, crate::proofs::AsRecords::compared_as_records))]
pub fn law_of_records_as_drafts()
    ensures one { ExplainedAsRecord }
    ensures two { ComparedAsRecords }
{}
