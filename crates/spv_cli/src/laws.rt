// Lists of words, worked by hand: each law is the contract of a function that does nothing.

ghost use Rattle.spv_cli.specs.WorkedCommands.{BadLimit, BehindDashes, ConditionsAlone, EachLimit, ListingBehind, ManyFiles, NoListing, NoWords, OneFile, OtherMode, OtherOption, RulesBehind, TwiceGiven, UnusedOption, WithProofs};

/// Words that are commands.
pub fn law_commands()
    ensures one_file { OneFile }
    ensures rules { RulesBehind }
    ensures listing { ListingBehind }
    ensures conditions { ConditionsAlone }
    ensures proofs { WithProofs }
    ensures limits { EachLimit }
    ensures dashes { BehindDashes }
    ensures unused { UnusedOption }
{}

/// Words that are none.
pub fn law_no_commands()
    ensures no_words { NoWords }
    ensures mode { OtherMode }
    ensures many_files { ManyFiles }
    ensures no_listing { NoListing }
    ensures option { OtherOption }
    ensures limit { BadLimit }
    ensures twice { TwiceGiven }
{}
