//! Laws of the definitions, each the contract of a function that does nothing.
ghost use Rattle.std.specs.Prelude.{◌≡◌, ◌++◌, ℕ, List, [], true};
ghost use Rattle.std.specs.List.{All};
ghost use Rattle.ab_lex.specs.Commands.{Item};
ghost use Rattle.ab_sigmod.specs.FileLoads.{Load};
ghost use Rattle.ab_session.specs.ab_states.specs.State.{State};
ghost use Rattle.ab_session.specs.ab_states.specs.Replay.{IsReplayed};
ghost use Rattle.ab_session.specs.ab_states.specs.Reply.{Reply, completed, admitted};
ghost use Rattle.ab_session.specs.ab_states.specs.StateEffects.{HasEffect};
ghost use Rattle.ab_session.specs.Contents.{Contents, state_of};
ghost use Rattle.ab_session.specs.Origins.{IsSession};
ghost use Rattle.ab_determinism.specs.Sound.{IsSound};
ghost use Rattle.ab_session.specs.SessionAnswers.{IsDerivedLast, IsProvedLast};
ghost use Rattle.ab_run.specs.declared.way.Way.{Way};
ghost use Rattle.ab_run.specs.Report.{Moment, Report, ReportOf, Reports, has_end};

/// A text has one report in a run of one way, by the same loads: one reply to each of its commands, and one state behind it. So it has one
/// output and one status.
pub fn texts_have_one_report()
    ensures { (way : Way) (text : List ℕ) (loads : List Load) (r q : Report) → ReportOf way text loads r → ReportOf way text loads q → r ≡ q }
{}

/// The report of a text begins with a report of its first items, and their loads stand first.
pub fn reports_begin_alike()
    ensures { (way : Way) (first others : List Item) (s : State) (loads : List Load) (r : Report) → Reports way s (first ++ others) loads r
        → (q rest : Report) × (early later : List Load) × Reports way s first early q × (loads ≡ early ++ later) × (r ≡ q ++ rest) }
{}

/// What stands behind the reply that ends the run changes no report.
pub fn last_reply_ends_a_report()
    ensures { (way : Way) (text more : List ℕ) (loads : List Load) (r : Report) → ReportOf way text loads r → has_end way r ≡ true → ReportOf way (text ++ more) loads r }
{}

/// Each state of a report is the one that its kept commands lead to.
pub fn kept_commands_replay()
    ensures { (way : Way) (text : List ℕ) (loads : List Load) (r : Report) → ReportOf way text loads r → All (λ (m : Moment). IsReplayed m.state) r }
{}

/// The state of a session is sound, since its kept commands lead to it: what is declared is, and a formula that is being proved is a
/// sentence.
pub fn sessions_have_sound_states()
    ensures { (s : Contents) → IsSession s → IsSound (state_of s) }
{}

/// A command has one answer in a session, whatever it takes back, where loads begin alike: one reply, one state behind it, and one front
/// of the loads that it asks for. So in a session each refusal comes exactly where what it speaks of is the first of what is asked that
/// isn't there.
pub fn commands_have_one_answer_in_a_session()
    ensures replies { (s : Contents) (bytes : List ℕ) (loads others rest more : List Load) (r q : Reply) (t u : State) → IsSession s → loads ++ rest ≡ others ++ more
        → HasEffect (state_of s) bytes loads r t → HasEffect (state_of s) bytes others q u → r ≡ q }
    ensures states { (s : Contents) (bytes : List ℕ) (loads others rest more : List Load) (r q : Reply) (t u : State) → IsSession s → loads ++ rest ≡ others ++ more
        → HasEffect (state_of s) bytes loads r t → HasEffect (state_of s) bytes others q u → t ≡ u }
    ensures loads { (s : Contents) (bytes : List ℕ) (loads others rest more : List Load) (r q : Reply) (t u : State) → IsSession s → loads ++ rest ≡ others ++ more
        → HasEffect (state_of s) bytes loads r t → HasEffect (state_of s) bytes others q u → loads ≡ others }
{}

/// Where a report says that a theorem is proved, it stands last in the state behind the command, and is proved with each theorem that it
/// rests on. Where it says what the theorem assumes, that stands last too, and has a derivation, in which goals may have been admitted.
pub fn completions_are_derived()
    ensures completed { (way : Way) (text name : List ℕ) (loads : List Load) (r : Report) → ReportOf way text loads r
        → All (λ (m : Moment). m.reply ≡ completed name → IsProvedLast m.state.declarations name) r }
    ensures admitted { (way : Way) (text name : List ℕ) (names : List (List ℕ)) (loads : List Load) (r : Report) → ReportOf way text loads r
        → All (λ (m : Moment). m.reply ≡ admitted name names → IsDerivedLast m.state.declarations name) r }
{}
