// What holds after any number of calls, refused ones among them.
ghost use Rattle.book.specs.Histories.{EveryHistoryHolds, EveryRefusalAgrees, EveryHistoryIsLawful, EveryHistoryIsTyped};
ghost use Rattle.book.specs.Rules.{SoundIsTheRules};

// In every state that calls lead to from a new book, the rows hold just the trains in force, no call finds the tables
// damaged, and each refusal is that of the plain list. The trains keep the rules, no two have one number, and they are
// within the limits of the book. Each of their numbers fits its type: no fare is above 65,535 cents. The test of the
// rules agrees with the rules in plain words.
pub fn every_history_holds()
    ensures rows { EveryHistoryHolds }
    ensures refusals { EveryRefusalAgrees }
    ensures trains { EveryHistoryIsLawful }
    ensures types { EveryHistoryIsTyped }
    ensures rules { SoundIsTheRules }
{}
