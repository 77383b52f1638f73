// What an exchange on the numbers is, as the contract of a function that does nothing.

ghost use Rattle.spv_dictionary.specs.Laws.{ExchangesBasis, IsPivot, RefusesPivot, IsFirstForm};

/// The exchange of a row's column with that of a slot is the pivot of the solved form.
pub fn law_exchange()
    ensures basis { ExchangesBasis }
    ensures pivot { IsPivot }
    ensures refused { RefusesPivot }
{}

/// The rows as they begin are a solved form.
pub fn law_first()
    ensures { IsFirstForm }
{}
