//! The fixed texts of an explanation.

ghost use Rattle.std.specs.Prelude.{◌≡◌};
ghost use Rattle.gate_gaps.specs.Phrases.{gap_phrase_text};

/// A fixed text.
#[derive(Clone, Copy)]
pub enum Phrase {
    CanShow,
    Holds,
    Reads,
    HasCleared,
    Left,
    AllSync,
    Failover,
    MissFailover,
    Cold,
    Warm,
    Policies,
    Default,
    /// The front of the path to the route by which deletes go.
    DeletesGo,
    DefaultPath,
    DeletePath,
    WildcardPath,
    /// The front of what to change.
    ToChange,
    Lacks,
    LacksChild,
    StopsBefore,
    FirstAlone,
    ColdAlone,
    ClearsNothing,
    OverBoth,
    AddOne,
    OfChildren,
    OfSides,
    SendThere,
    /// What else could be done.
    Else,
}

/// The text.
#[tactic(auto, unfolding(crate::specs::Phrases::gap_phrase_text))]
pub fn text_of(phrase: Phrase) -> &'static str
    ensures { result.now ≡ gap_phrase_text phrase }
{
    match phrase {
        Phrase::CanShow => "of these keys can show or copy what",
        Phrase::Holds => "holds:",
        Phrase::Reads => "# reads of them can show or copy what these hold:",
        Phrase::HasCleared => "that is acknowledged has cleared:",
        Phrase::Left => "# and can have left as they were:",
        Phrase::AllSync => "AllSyncRoute",
        Phrase::Failover => "FailoverRoute",
        Phrase::MissFailover => "MissFailoverRoute",
        Phrase::Cold => "WarmUpRoute cold",
        Phrase::Warm => "WarmUpRoute warm",
        Phrase::Policies => "OperationSelectorRoute operation_policies",
        Phrase::Default => "OperationSelectorRoute default_policy",
        Phrase::DeletesGo => "# deletes of these keys go by /route",
        Phrase::DefaultPath => "/default_policy",
        Phrase::DeletePath => "/operation_policies/delete",
        Phrase::WildcardPath => "/wildcard",
        Phrase::ToChange => "# to change: it",
        Phrase::Lacks => "lacks",
        Phrase::LacksChild => "lacks a child that always clears",
        Phrase::StopsBefore => "can stop before",
        Phrase::FirstAlone => "asks its first child alone, not",
        Phrase::ColdAlone => "asks its cold side alone, not",
        Phrase::ClearsNothing => "clears nothing, not even",
        Phrase::OverBoth => ": put an AllSyncRoute there, over it and a route to that server",
        Phrase::AddOne => ": add one",
        Phrase::OfChildren => ": put an AllSyncRoute of its children there for deletes",
        Phrase::OfSides => ": put an AllSyncRoute of both sides there for deletes",
        Phrase::SendThere => ": send deletes to that server",
        Phrase::Else => {
            "# or: let no read of these keys go to that server, or send their deletes to an ErrorRoute, which acknowledges none"
        }
    }
}
