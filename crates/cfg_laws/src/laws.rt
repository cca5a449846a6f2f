//! What the canonical text spells is read back.
ghost use Rattle.cfg_laws.specs.Laws.Lines.{WordsReadBack, LinesReadBack};
ghost use Rattle.cfg_laws.specs.Laws.Calls.{CallsReadBack};
ghost use Rattle.cfg_laws.specs.Laws.Exprs.{ExprsReadBack, WholeExprsReadBack};
ghost use Rattle.cfg_laws.specs.Laws.Formats.{FormatsReadBack};
ghost use Rattle.cfg_laws.specs.Laws.Tests.{AclLinesReadBack, TestsReadBack};
ghost use Rattle.cfg_laws.specs.Laws.Conditions.{ConditionsReadBack};
ghost use Rattle.cfg_laws.specs.Laws.Rules.{RulesReadBack};
ghost use Rattle.cfg_laws.specs.Laws.Table.{NamesDeclared, TermsNamed, ConditionsNamed, TableSpelled, TableDeclared};
ghost use Rattle.cfg_laws.specs.Laws.Read.{CallsAreSpelled, NumbersAreSpelled, CountsAreSpelled, OccurrencesAreSpelled, FieldsAreSpelled, VariablesAreSpelled, FetchesAreSpelled, ConvsAreSpelled, ExprsAreSpelled, WholeExprsAreSpelled, FormatsAreSpelled, TestsAreSpelled, NamesAreSpelled, LinesAreSpelled, CondsAreSpelled};
ghost use Rattle.cfg_laws.specs.Laws.Listing.{TableLinesRead, RuleLinesRead, PairLinesRead};
ghost use Rattle.cfg_laws.specs.Laws.Configs.{ConfigsReadBack};
ghost use Rattle.cfg_laws.specs.Laws.ReadSettings.{TimesAreSpelled, AddressesAreSpelled, ServersAreSpelled, FiltersAreSpelled, PathsAreSpelled, ScriptsAreSpelled, StartIsSpelled, LineKeepsSettings, LinesKeepSettings, WholeIsSpelled, TextsAreSpelled};
ghost use Rattle.cfg_laws.specs.Laws.ReadPairs.{PairsStandBehind};
ghost use Rattle.cfg_laws.specs.Laws.ReadDrafts.{StartHasRules, LineKeepsRules, LinesKeepRules};
ghost use Rattle.cfg_laws.specs.Laws.Loaded.{LoadedIsSpelled, LoadedReadsBack};
ghost use Rattle.cfg_laws.specs.Laws.ReadRules.{ActionsAreSpelled, LinesAreFew, EndsAreSpelled, RulesAreSpelled, PairsAreSpelled, ForwardingIsSpelled};
ghost use Rattle.cfg_laws.specs.Laws.Numbers.{NumbersReadBack, SizesReadBack, TimesReadBack, PortsReadBack, CountsReadBack};
ghost use Rattle.cfg_laws.specs.Laws.Addresses.{AddressesReadBack, ServersReadBack};
ghost use Rattle.cfg_laws.specs.Laws.Settings.{GlobalReadBack, ListenReadBack, RequestFiltersReadBack, ResponseFiltersReadBack};
ghost use Rattle.cfg_laws.specs.Laws.Whole.{WholeReadBack};

/// The words of a line are read back, whatever bytes they have.
pub fn words_read_back()
    ensures { WordsReadBack }
{}

/// A line of the text is a line where it is read: no byte of a word ends it.
pub fn lines_read_back()
    ensures { LinesReadBack }
{}

/// A name with its arguments is read back, where they can be said.
pub fn calls_read_back()
    ensures { CallsReadBack }
{}

/// An expression is read back in front of `]` or at the end of a text, where its parts can be said and the direction has its fetch.
pub fn exprs_read_back()
    ensures { ExprsReadBack }
{}

/// The same of a text that is an expression.
pub fn whole_exprs_read_back()
    ensures { WholeExprsReadBack }
{}

/// A format is read back, where no text of it is empty, none stands behind another, and its expressions can be said.
pub fn formats_read_back()
    ensures { FormatsReadBack }
{}

/// An `acl` line is read back, where its name may be declared and its test can be said; and the test is the same in a direction that has its fetch.
pub fn tests_read_back()
    ensures line { AclLinesReadBack }
    ensures test { TestsReadBack }
{}

/// A condition by names is read back, where each name says the tests that it stands for.
pub fn conditions_read_back()
    ensures { ConditionsReadBack }
{}

/// A rule is read back where its condition is, with arguments that a configuration may have and texts that can be said.
pub fn rules_read_back()
    ensures { RulesReadBack }
{}

/// The `acl` lines of a table declare its names, and each name stands for the tests of its terms, so that the conditions of these terms are read back.
pub fn table_read_back()
    ensures text { TableSpelled }
    ensures names { NamesDeclared }
    ensures lines { TableDeclared }
    ensures terms { TermsNamed }
    ensures conditions { ConditionsNamed }
{}

/// What is read from any text can be said again: it meets the premises of the laws above.
pub fn what_is_read_is_spelled()
    ensures calls { CallsAreSpelled }
    ensures numbers { NumbersAreSpelled }
    ensures counts { CountsAreSpelled }
    ensures occurrences { OccurrencesAreSpelled }
    ensures fields { FieldsAreSpelled }
    ensures variables { VariablesAreSpelled }
    ensures fetches { FetchesAreSpelled }
    ensures converters { ConvsAreSpelled }
    ensures expressions { ExprsAreSpelled }
    ensures whole_expressions { WholeExprsAreSpelled }
    ensures formats { FormatsAreSpelled }
    ensures tests { TestsAreSpelled }
    ensures names { NamesAreSpelled }
    ensures lines { LinesAreSpelled }
    ensures conditions { CondsAreSpelled }
{}

/// What is read of the words of rules can be said again.
pub fn rules_that_are_read_are_spelled()
    ensures actions { ActionsAreSpelled }
    ensures lines { LinesAreFew }
    ensures ends { EndsAreSpelled }
    ensures rules { RulesAreSpelled }
    ensures pairs { PairsAreSpelled }
    ensures forwarding { ForwardingIsSpelled }
{}

/// Numbers are read back, each within the limits of what it tells.
pub fn numbers_read_back()
    ensures number { NumbersReadBack }
    ensures size { SizesReadBack }
    ensures time { TimesReadBack }
    ensures port { PortsReadBack }
    ensures count { CountsReadBack }
{}

/// An address is read back, where it has a port and its host can be said; that of a server, where it has a host too.
pub fn addresses_read_back()
    ensures address { AddressesReadBack }
    ensures server { ServersReadBack }
{}

/// The lines of settings are read back together, each where the others stand behind it: the sizes, what stands in `listen` without rules, and the filters.
pub fn settings_read_back()
    ensures global { GlobalReadBack }
    ensures listen { ListenReadBack }
    ensures requests { RequestFiltersReadBack }
    ensures responses { ResponseFiltersReadBack }
{}

/// What all lines made comes to the configuration that they were made of, where it is valid, tells no peer, and the rules of its pairs can be said.
pub fn whole_read_back()
    ensures { WholeReadBack }
{}

/// The lines of a table, of rules and of pairs are read back where they stand in `listen`, one behind the other.
pub fn listing_read_back()
    ensures table { TableLinesRead }
    ensures rules { RuleLinesRead }
    ensures pairs { PairLinesRead }
{}

/// The canonical text of a configuration loads to that configuration, where a text can say it, it fits the limits of a text, and each of its patterns is built.
pub fn configs_read_back()
    ensures { ConfigsReadBack }
{}

/// Settings and pairs that are read from any text can be said again: they meet the premises of the laws above. Each line keeps what makes it so.
pub fn settings_that_are_read_are_spelled()
    ensures times { TimesAreSpelled }
    ensures addresses { AddressesAreSpelled }
    ensures servers { ServersAreSpelled }
    ensures filters { FiltersAreSpelled }
    ensures paths { PathsAreSpelled }
    ensures scripts { ScriptsAreSpelled }
    ensures start { StartIsSpelled }
    ensures line { LineKeepsSettings }
    ensures lines { LinesKeepSettings }
    ensures whole { WholeIsSpelled }
    ensures texts { TextsAreSpelled }
{}

/// The rules of pairs stand behind all others of requests where lines made them, with their names in the order of the first rule of each.
pub fn pairs_that_are_read_are_spelled()
    ensures { PairsStandBehind }
{}

/// What any lines leave of `acl` lines, rules and pairs can be said again. Each line keeps what makes it so.
pub fn rules_of_lines_are_spelled()
    ensures start { StartHasRules }
    ensures line { LineKeepsRules }
    ensures lines { LinesKeepRules }
{}

/// A text can say each configuration that is loaded; one that is loaded is valid.
pub fn loaded_is_spelled()
    ensures { LoadedIsSpelled }
{}

/// The canonical text of a configuration that is loaded loads to the same configuration, where it fits the limits of a text and each of its patterns is built.
pub fn loaded_reads_back()
    ensures { LoadedReadsBack }
{}
