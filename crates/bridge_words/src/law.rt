//! What holds of all words.
ghost use Rattle.std.specs.Prelude.{◌≡◌, ℕ, List, [], ◌∷◌, ◌++◌, Some, None, true, false, codes};
ghost use Rattle.clap.specs.Walk.{Text};
ghost use Rattle.bridge_words.specs.declared.command.Command.{Command};
ghost use Rattle.bridge_words.specs.declared.command.Command.TheVariants.{Drain, Serve};
ghost use Rattle.bridge_words.specs.declared.command.Receiver.TheVariants.{Relp as ToRelp};
ghost use Rattle.bridge_words.specs.Values.{number_within};
ghost use Rattle.bridge_words.specs.Words.{IsCommand, IsMove, IsNoCommand, IsNoMove, SpellTokens, relp_server};

/// Words are one command at most.
pub fn one_command()
    ensures { (c d : Command) (words : List Text) → IsCommand c words → IsCommand d words → c ≡ d }
{}

/// Words that move entries are no command, and they move into one target under one tag.
pub fn one_move()
    ensures no_command { (target : Text) (tag : ℕ) (words : List Text) → IsMove target tag words → IsNoCommand words }
    ensures target { (a b : Text) (m n : ℕ) (words : List Text) → IsMove a m words → IsMove b n words → a ≡ b }
    ensures tag { (a b : Text) (m n : ℕ) (words : List Text) → IsMove a m words → IsMove b n words → m ≡ n }
{}

/// How a move is spelt: with a target that is any text, where it stands after `--`, and a tag that is a number below 2^32; and with both.
pub fn moving()
    ensures moves { (target t : Text) (tag : ℕ) → number_within 0 4294967295 t ≡ Some tag
        → IsMove target tag (codes "move" ∷ codes "--" ∷ target ∷ t ∷ []) }
    ensures no_tag { (target t : Text) → number_within 0 4294967295 t ≡ None → IsNoMove (codes "move" ∷ codes "--" ∷ target ∷ t ∷ []) }
    ensures both { (target : Text) → IsNoMove (codes "move" ∷ codes "--" ∷ target ∷ []) }
{}

/// How options are spelt, at `replay`, whatever their values are: they stand in any order, each once, and only after the
/// command's name and before `--`. A place after `--` is any text that isn't empty.
pub fn spelling()
    ensures joined { SpellTokens (λ t a. codes "replay" ∷ codes "hec" ∷ (codes "--token=" ++ t) ∷ (codes "--ack-token=" ++ a) ∷ []) }
    ensures turned { SpellTokens (λ t a. codes "replay"
        ∷ (codes "--ack-token=" ++ a) ∷ (codes "--token=" ++ t) ∷ codes "--" ∷ codes "hec" ∷ []) }
    ensures twice { (t u : Text) → IsNoCommand (codes "replay" ∷ codes "hec" ∷ (codes "--token=" ++ t) ∷ (codes "--token=" ++ u) ∷ []) }
    ensures ended { (t : Text) → IsNoCommand (codes "replay" ∷ codes "hec" ∷ codes "--" ∷ (codes "--token=" ++ t) ∷ []) }
    ensures before { (t : Text) → IsNoCommand ((codes "--token=" ++ t) ∷ codes "replay" ∷ codes "hec" ∷ []) }
    ensures placed { (x : ℕ) (more : Text) → IsCommand (Drain ToRelp (Some (x ∷ more))) (codes "drain" ∷ codes "relp" ∷ codes "--" ∷ (x ∷ more) ∷ []) }
{}

/// How `--group` is spelt, at a `serve` of RELP at any place: it is there or not, before the place or after it, once at most, and it
/// takes no value.
pub fn grouping()
    ensures without { (x : ℕ) (place : Text) → IsCommand (Serve (relp_server (x ∷ place) false))
        (codes "serve" ∷ (codes "--relp=" ++ x ∷ place) ∷ []) }
    ensures before { (x : ℕ) (place : Text) → IsCommand (Serve (relp_server (x ∷ place) true))
        (codes "serve" ∷ codes "--group" ∷ (codes "--relp=" ++ x ∷ place) ∷ []) }
    ensures behind { (x : ℕ) (place : Text) → IsCommand (Serve (relp_server (x ∷ place) true))
        (codes "serve" ∷ (codes "--relp=" ++ x ∷ place) ∷ codes "--group" ∷ []) }
    ensures twice { (place : Text) → IsNoCommand (codes "serve" ∷ codes "--group" ∷ codes "--group" ∷ (codes "--relp=" ++ place) ∷ []) }
    ensures valued { (place value : Text) → IsNoCommand (codes "serve" ∷ (codes "--relp=" ++ place) ∷ (codes "--group=" ++ value) ∷ []) }
{}
