//! Laws of every run. No code runs here.
ghost use Rattle.std.specs.Prelude.{◌≡◌, ℕ, true, false, List};
ghost use Rattle.bureau.specs.Alone.{AreAnsweredAlike, IsAlone, opening_of};
ghost use Rattle.bureau.specs.Course.{ActsOnceIn, IsAloneWhereItStays, IsCourse, IsInBoth, Stage, StaysStaleIn, opening_of_newcomer};
ghost use Rattle.bureau.specs.Joint.{CallBy, IsRun};
ghost use Rattle.bureau.specs.Repeat.{ActsOnce, StaysStale};
ghost use Rattle.bureau_store.specs.SetCallers.{has_name, with_callers};
ghost use Rattle.bureau_store.specs.Tables.{AreInOrder, Tables};
ghost use Rattle.bureau_store.specs.declared.caller.Caller.{Caller};
ghost use Rattle.bureau_store.specs.declared.caller.Caller.TheVariants.{Client, Publisher};
ghost use Rattle.bureau_store.specs.declared.caller.CallerRow.{CallerRow};

/// Isolation, a law of every run of the bureau, whatever calls of whatever callers come in whatever order.
///
/// `alone`: each caller's answers, other than 503, are those of a bureau that received the publisher's calls and
/// that caller's alone, without those answered 503. `alike`: in two runs that open alike for a caller, the same
/// call after the same own history has the same answer, unless one of the two is 503.
pub fn isolation()
    ensures alone { (opening closing : Tables) (calls : List CallBy) (viewer : Caller) →
        AreInOrder opening → IsRun opening calls closing → IsAlone viewer (opening_of viewer opening) calls }
    ensures alike { (opening closing opening2 closing2 : Tables)
        (calls calls2 : List CallBy) (viewer : Caller) →
        AreInOrder opening → AreInOrder opening2 → IsRun opening calls closing →
        IsRun opening2 calls2 closing2 →
        opening_of viewer opening ≡ opening_of viewer opening2 → AreAnsweredAlike viewer calls calls2 }
{}

/// Laws over several runs, between which the bureau may get other callers, whatever calls come in them.
///
/// `alone`: for each caller who stays it is as if nothing had happened. Its answers, other than 503, are those of
/// a bureau that received the publisher's calls and that caller's alone. `newcomer`: a new client finds the
/// published content, and nothing of its own, whoever had its name before. `once` and `stale`: a change acts once,
/// in whichever runs it comes again, as [`repeats`] says of one run, as long as its caller stays.
pub fn other_callers()
    ensures alone { (opening closing : Tables) (stages : List Stage) →
        AreInOrder opening → IsCourse opening stages closing → IsAloneWhereItStays opening stages }
    ensures newcomer { (rows : List CallerRow) (this : Tables) (name : List ℕ) →
        IsInBoth Publisher this.callers rows → has_name this.callers name ≡ false → has_name rows name ≡ true →
        opening_of (Client name) (with_callers rows this) ≡ opening_of_newcomer this }
    ensures once { (opening closing : Tables) (stages : List Stage) →
        IsCourse opening stages closing → ActsOnceIn opening stages closing }
    ensures stale { (opening closing : Tables) (stages : List Stage) →
        IsCourse opening stages closing → StaysStaleIn opening stages closing }
{}

/// Repeats, a law of every run of the bureau: a change acts once, however often it is sent.
///
/// `once`: a change that was told 200 is told the same when its number comes again, until a later change of the
/// caller's was made, and STALE from then on. `stale`: a change that was told STALE is told so from then on. A 503
/// may come in place of each. The tables are those of the same run without the changes that came again.
pub fn repeats()
    ensures once { (opening closing : Tables) (calls : List CallBy) →
        IsRun opening calls closing → ActsOnce opening calls closing }
    ensures stale { (opening closing : Tables) (calls : List CallBy) →
        IsRun opening calls closing → StaysStale opening calls closing }
{}
