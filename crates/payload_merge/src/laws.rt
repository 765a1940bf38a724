// What the payload rule and the fold come to, for every table and every list of writes.
ghost use Rattle.payload_merge.specs.Laws.{WritesActKeyByKey, InstantsFoldKeyByKey, InstantsFoldInTimeOrder, LatestOfGreatestRankStays, RowsMakeTheirTable, LaterInstantsFoldLast, WritesToSomeKeysSuffice, BaseOfATableMakesIt, DataContentsFoldAsTheirRows, LaterContentsFoldLast, SummariesJoin, SummariesKeepTheirKey, SummaryIsTheWholeEffect};

/// What a key has after writes depends on the writes to that key alone, and on their order.
pub fn writes_act_key_by_key()
    ensures { WritesActKeyByKey }
{}

/// The same for instants: what a key has depends on their writes to that key alone.
pub fn instants_fold_key_by_key()
    ensures { InstantsFoldKeyByKey }
{}

/// Instants take effect in the order of time, and those of one time in the order in which they came.
pub fn instants_fold_in_time_order()
    ensures { InstantsFoldInTimeOrder }
{}

/// After puts alone, each key has the last of its rows of the greatest rank.
pub fn latest_of_greatest_rank_stays()
    ensures { LatestOfGreatestRankStays }
{}

/// The rows of a folded table come in the order of their keys, each key once, and puts of them make the table again.
pub fn rows_make_their_table()
    ensures { RowsMakeTheirTable }
{}

/// Later instants are taken after what the earlier ones left.
pub fn later_instants_fold_last()
    ensures { LaterInstantsFoldLast }
{}

/// The writes to some keys alone, as to those of one file group, make of these keys what all the writes make.
pub fn writes_to_some_keys_suffice()
    ensures { WritesToSomeKeysSuffice }
{}

/// A base file of a table's rows makes the table again.
pub fn base_of_a_table_makes_it()
    ensures { BaseOfATableMakesIt }
{}

/// Data contents one after another make of a table what the puts of their rows make of it.
pub fn data_contents_fold_as_their_rows()
    ensures { DataContentsFoldAsTheirRows }
{}

/// Contents are taken after what the earlier ones left.
pub fn later_contents_fold_last()
    ensures { LaterContentsFoldLast }
{}

/// Writes to one key act on any row of it as their summary does. So a summary keeps all that matters of them.
pub fn summary_is_the_whole_effect()
    ensures { SummaryIsTheWholeEffect }
{}

/// Each write has a summary, and two lists of writes have that which `then` makes of theirs.
pub fn summaries_join()
    ensures { SummariesJoin }
{}

/// Summaries of writes to one key have rows of that key alone, and so have the rows that they leave.
pub fn summaries_keep_their_key()
    ensures { SummariesKeepTheirKey }
{}
