//! Laws of the definitions in specs/, each the contract of a function that does nothing.

ghost use Rattle.std.specs.Prelude.{◌≡◌, ◌<◌, Some, ℕ, List, [], length};
ghost use Rattle.std.specs.List.{range_with_len};
ghost use Rattle.tdb_base.specs.Agrees.{AgreesOver, AgreesOwned, AgreesOwnedAmongOthers};
ghost use Rattle.tdb_base.specs.Headline.{EqualLinesEqualIds, DifferentLinesDifferentIds, CountsNames};
ghost use Rattle.tdb_base.specs.Headline.{EachNewOnce, CountsDistinct};
ghost use Rattle.tdb_base.specs.History.{Vector, History, flags_of, name_of};
ghost use Rattle.tdb_base.specs.Legal.{IsLegal, IsNamedIn, KeepsNames, PutsOnly};
ghost use Rattle.tdb_base.specs.Lines.{AreShared, dealt_to, named};
ghost use Rattle.tdb_base.specs.Renamed.{position_of, renamed};
ghost use Rattle.tdb_base.specs.declared.reply.Reply.{Reply};

/// In a legal history that goes on from another, each vector keeps the identifier that it had.
pub fn names_are_kept()
    ensures { (flag_count : ℕ) (h : History) → KeepsNames flag_count h }
{}

/// A history that only puts vectors is legal with any number of flags, or with none, and what agrees with
/// it does so with any number, whichever lines each worker has and whichever entries a line has.
pub fn puts_need_no_flags()
    ensures legal { (some other : ℕ) (h : History) → PutsOnly h → IsLegal some h → IsLegal other h }
    ensures agrees { (some other : ℕ) (lines_of : ℕ → List ℕ) (line_entries : ℕ → ℕ → History)
        (trace : List Vector) (replies : List Reply) (workers : ℕ)
        (earlier later : History) (callers : List ℕ) → PutsOnly later
        → AgreesOver some lines_of line_entries trace replies workers earlier later callers
        → AgreesOver other lines_of line_entries trace replies workers earlier later callers }
{}

/// In a legal history a vector's name is the one that an entry gave it.
pub fn names_are_given_by_entries()
    ensures given { (flag_count : ℕ) (h : History) (v : Vector) (id : ℕ) → IsLegal flag_count h
        → name_of h v ≡ Some id → IsNamedIn h v id }
    ensures named { (flag_count : ℕ) (h : History) (v : Vector) (id : ℕ) → IsLegal flag_count h
        → IsNamedIn h v id → name_of h v ≡ Some id }
{}

/// What replies that agree with a history tell of the lines of their trace, whose ever each line was, as
/// where they are dealt out to workers: the identifiers whoever else called and whatever was called before,
/// the counts where nobody else did and nothing was.
pub fn replies_tell_of_lines()
    ensures equal_lines_equal_identifiers { (flag_count : ℕ) (owner : ℕ → ℕ) (trace : List Vector)
        (replies : List Reply) (workers : ℕ) (earlier h : History) (callers : List ℕ)
        → AgreesOwnedAmongOthers flag_count owner trace replies workers earlier h callers
        → AreShared (length trace) workers owner
        → EqualLinesEqualIds trace replies }
    ensures different_lines_different_identifiers { (flag_count : ℕ) (owner : ℕ → ℕ) (trace : List Vector)
        (replies : List Reply) (workers : ℕ) (earlier h : History) (callers : List ℕ)
        → AgreesOwnedAmongOthers flag_count owner trace replies workers earlier h callers
        → AreShared (length trace) workers owner
        → DifferentLinesDifferentIds trace replies }
    ensures count_is_the_number_of_names { (flag_count : ℕ) (owner : ℕ → ℕ) (trace : List Vector)
        (replies : List Reply) (workers : ℕ) (h : History) (callers : List ℕ)
        → AgreesOwned flag_count owner trace replies workers [] h callers
        → AreShared (length trace) workers owner
        → CountsNames replies h }
    ensures each_new_exactly_once { (flag_count : ℕ) (owner : ℕ → ℕ) (trace : List Vector)
        (replies : List Reply) (workers : ℕ) (h : History) (callers : List ℕ)
        → AgreesOwned flag_count owner trace replies workers [] h callers
        → AreShared (length trace) workers owner
        → EachNewOnce trace replies }
    ensures count_is_the_number_of_distinct_lines { (flag_count : ℕ) (owner : ℕ → ℕ) (trace : List Vector)
        (replies : List Reply) (workers : ℕ) (h : History) (callers : List ℕ)
        → AgreesOwned flag_count owner trace replies workers [] h callers
        → AreShared (length trace) workers owner
        → CountsDistinct trace replies }
    ensures dealt { (lines workers block : ℕ) → 0 < workers → AreShared lines workers (dealt_to workers block) }
{}

/// A history can be told with other numbers for its callers: no name and no flags change, and it stays
/// legal. Where nobody but a trace's workers called, its replies agree with the history in which the
/// workers are numbered from 0.
pub fn callers_may_be_renumbered()
    ensures names { (given : ℕ → ℕ) (h : History) (v : Vector) → name_of (renamed given h) v ≡ name_of h v }
    ensures flags { (given : ℕ → ℕ) (h : History) (v : Vector) → flags_of (renamed given h) v ≡ flags_of h v }
    ensures named { (given : ℕ → ℕ) (h : History) → named (renamed given h) ≡ named h }
    ensures legal { (flag_count : ℕ) (given : ℕ → ℕ) (h : History) → IsLegal flag_count h
        → IsLegal flag_count (renamed given h) }
    ensures agrees { (flag_count : ℕ) (owner : ℕ → ℕ) (trace : List Vector) (replies : List Reply)
        (workers : ℕ) (h : History) (callers : List ℕ)
        → AgreesOwned flag_count owner trace replies workers [] h callers
        → AgreesOwned flag_count owner trace replies workers []
        (renamed (position_of callers) h) (range_with_len 0 workers) }
{}
