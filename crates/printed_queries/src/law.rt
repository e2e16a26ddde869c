// What a printed expression means, and how a leaf is looked up.
ghost use Rattle.printed_queries.specs.Law.{PrintedMeansTheSame, PrintedTooDeep};
ghost use Rattle.printed_queries.specs.Lookups.{LeafIsLookedUp};
ghost use Rattle.printed_queries.specs.Rows.{PrintedRows, DepthRows, PlainRows};

/// A law, with nothing to run. The printed text of a plain expression is a query whose tree every document satisfies exactly
/// where it satisfies the expression, whatever the default field is. One that nests deeper than 128 is too deep.
pub fn printed_means_the_same()
    ensures means_the_same { PrintedMeansTheSame }
    ensures too_deep { PrintedTooDeep }
{}

/// A law, with nothing to run. A document satisfies a leaf exactly where it holds a pair that is looked for in it. In `*` alone
/// nothing is looked for, and every document satisfies it.
pub fn leaves_are_looked_up()
    ensures { LeafIsLookedUp }
{}

/// A law, with nothing to run: the texts and depths of some expressions, and whether they are plain.
pub fn rows_hold()
    ensures printed { PrintedRows }
    ensures depths { DepthRows }
    ensures plain { PlainRows }
{}
