//! The covering laws, for the crates above.
ghost use Rattle.clip_extract.specs.Covering.{Covers, CoversTwice};

/// Where a query holds of an article, its keys and the article's keys have one in common.
pub fn covering_law()
    ensures { Covers }
{}

/// Where a query holds of an article and has second keys, these and the article's keys have one in common too.
pub fn second_covering_law()
    ensures { CoversTwice }
{}
