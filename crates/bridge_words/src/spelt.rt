//! How the words of each command are spelt, whatever their values are. The functions do nothing: each has laws as its contract.
ghost use Rattle.std.specs.Prelude.{ℕ, Some, codes};
ghost use Rattle.bridge_words.specs.declared.command.ListForm.TheVariants.{Plain};
ghost use Rattle.bridge_words.specs.Spellings.{SpellsDoors, SpellsFormat, SpellsForward, SpellsList, SpellsLoad, SpellsOption, StandApart};
ghost use Rattle.bridge_words.specs.Tokens.{tokens_at};
ghost use Rattle.bridge_words.specs.Values.{guid, number_within, place_at};
ghost use Rattle.desk_access.specs.declared.division.Division.TheVariants.{Connections};

/// The words of `format`: SLOTS from 1 to 1,024 and SIZE from 4,096 to 1,073,741,824, and nothing else. Here they stand after `--`, where
/// each is any text.
pub fn formatting()
    ensures { SpellsFormat }
{}

/// The words of `list`: none, or `--as=FORM` once, with one of the forms.
pub fn listing()
    ensures { SpellsList Plain }
{}

/// The words of `load`: PROTO, NUMBER from 0 to 2,147,483,647 and COUNT from 0 to 100,000, and nothing else. Here they stand after `--`,
/// where each is any text.
pub fn loading()
    ensures { SpellsLoad }
{}

/// The words of `serve` name a place at which connections come in, by `--relp`, `--lumberjack` or `--hec`, and no word is taken there but
/// options.
pub fn serving()
    ensures { SpellsDoors }
{}

/// The options of `serve` for places: each sets its own, which isn't empty, and stands once.
pub fn placing()
    ensures lumberjack { SpellsOption (codes "--lumberjack=") place_at (λ place server. record server { lumberjack = Some place }) }
    ensures hec { SpellsOption (codes "--hec=") place_at (λ place server. record server { hec = Some place }) }
    ensures status { SpellsOption (codes "--status=") place_at (λ place server. record server { status = Some place }) }
{}

/// The options of `serve` for how many serve: 1 to 16 workers for each place, or 1 to 1,024 connections, and not both; and how many
/// connections each worker serves at most, 1 to 2^26.
pub fn counting()
    ensures workers { SpellsOption (codes "--workers=") (number_within 1 16) (λ n server. record server { workers = n }) }
    ensures connections { SpellsOption (codes "--connections=") (number_within 1 1024)
        (λ n server. record server { division = Connections; workers = n; talks = 1048576 }) }
    ensures talks { SpellsOption (codes "--talks=") (number_within 1 67108864) (λ n server. record server { talks = n }) }
    ensures apart { StandApart (codes "--connections=") (codes "--workers=") }
{}

/// The options of `serve` for the collector's tokens: a GUID without acks, one with acks, or a list of 1 to 1,000 lines beside neither.
pub fn naming_tokens()
    ensures token { SpellsOption (codes "--token=") guid (λ token server. record server { token = Some token }) }
    ensures ack_token { SpellsOption (codes "--ack-token=") guid (λ token server. record server { ack_token = Some token }) }
    ensures tokens { SpellsOption (codes "--tokens=") tokens_at (λ listed server. record server { listed = listed }) }
    ensures token_apart { StandApart (codes "--tokens=") (codes "--token=") }
    ensures ack_token_apart { StandApart (codes "--tokens=") (codes "--ack-token=") }
{}

/// The options of `serve` for a receiver: a protocol and a place together, for the collector with a token and a channel, each of which is
/// a GUID, and how often it is asked, 1 to 1,000. Those three say nothing where no receiver is named, but they are read.
pub fn forwarding()
    ensures forward { SpellsForward }
    ensures out_token { SpellsOption (codes "--out-token=") guid (λ said server. server) }
    ensures out_channel { SpellsOption (codes "--out-channel=") guid (λ said server. server) }
    ensures polls { SpellsOption (codes "--polls=") (number_within 1 1000) (λ said server. server) }
{}
