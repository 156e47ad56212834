//! The receiver.
ghost use Rattle.std.specs.Prelude.{◌≡◌, ◌≤◌, length, IfOk, IfSome, IfNone};
ghost use Rattle.http_edge.specs.Waits.{with_body};
ghost use Rattle.hec_session.specs.Acts.{IsAct, IsRefusal, IsSound, WantsBody, count_of};
ghost use Rattle.hec_session.specs.Codes.{IsReply};
ghost use Rattle.hec_session.specs.Checks.{request_of};

use crate::act::HecAct;
use crate::body::{ask, store, store_on};
use crate::request::RequestRef;
use crate::say::HecSay;
use crate::stop::Stop;
use crate::task::{Task, task_of};
use crate::tokens::Tokens;
use hec_tokens::TokenList;
use http_edge::{Head, HttpRequest};
use std::alloc::{AllocError, Global};
use std::marker::Model;

/// A receiver of Splunk's HTTP Event Collector. Contracts see its tokens.
#[derive(Drop)]
pub struct HecCore {
    tokens: Tokens,
}

impl Model for HecCore {
    ghost use Rattle.hec_session.specs.declared.tokens.Tokens.{Tokens};

    ghost Value = { Tokens };

    ghost view = { λ core. core.tokens };
}

impl HecCore {
    /// A receiver with a token without acks, one that uses them, and those of a list, each the number of a
    /// GUID. A GUID that stands in several places uses acks if it does so in one of them. It takes no memory.
    pub fn new(token: Option<u128>, ack_token: Option<u128>, listed: TokenList) -> HecCore
        ensures { result ≡ record { token = token; ack_token = ack_token; listed = listed } }
    {
        HecCore {
            tokens: Tokens {
                token,
                ack_token,
                listed,
            },
        }
    }

    // What is done for a request, by its checks and its body.
    fn judge(&self, alloc: Global, request: &RequestRef<'_>) -> Result<HecAct, AllocError>
        ensures act { IfOk result (IsAct self.now (request_of request.now)) }
        ensures sound { IfOk result IsSound }
        ensures bounded { IfOk result (λ act. count_of act ≤ length request.now.body.now) }
    {
        let body = request.body;
        match task_of(alloc, &self.tokens, request) {
            Ok(Task::Store(form)) => store(alloc, form, body),
            Ok(Task::StoreOn(form, channel)) => store_on(alloc, form, channel, body),
            Ok(Task::AskOn(channel)) => ask(alloc, channel, body),
            Err(Stop::Answer(code)) => Ok(HecAct::Say(HecSay::of(code, None))),
            Err(Stop::OutOfMemory) => Err(AllocError),
        }
    }

    /// What is done for a request. The checks are made in this order, and the first that doesn't pass
    /// answers ("HTTP Event Collector REST API endpoints"; the order and the limits are this project's own):
    ///
    /// - the path, by its bytes, and the method: 404, 405; health is answered at once, 17
    /// - the Authorization, `Splunk` and one space before a GUID: 2, 16 where the query has a `token`, 3, 4
    /// - on `ack`, a token that uses acks: 14
    /// - with such a token the channel, a GUID of X-Splunk-Request-Channel or else of the query: 10, 11
    /// - the Content-Encoding, which may be `identity` alone: 6
    /// - the body: 5, and 6, 12 and 13 with the number of the event; a body of `ack`: 6
    ///
    /// The only error is want of memory.
    pub fn step(&self, alloc: Global, request: &HttpRequest) -> Result<HecAct, AllocError>
        ensures act { IfOk result (IsAct self.now request.now) }
        ensures sound { IfOk result IsSound }
        ensures bounded { IfOk result (λ act. count_of act ≤ length request.now.body) }
    {
        let request = RequestRef {
            method: request.method.bytes(),
            target: request.target.bytes(),
            fields: &request.fields,
            body: request.body.bytes(),
        };
        self.judge(alloc, &request)
    }

    /// How a request with this head is answered whatever its body is: by the first check before the body that doesn't pass. `None`
    /// exactly where all pass, and what is done depends on the body. The only error is want of memory.
    pub fn refusal(&self, alloc: Global, head: &Head) -> Result<Option<HecSay>, AllocError>
        ensures refused { IfOk result (λ refusal. IfSome refusal (IsRefusal self.now head.now)) }
        ensures wanted { IfOk result (λ refusal. IfNone refusal (WantsBody self.now head.now)) }
        ensures reply { IfOk result (λ refusal. IfSome refusal IsReply) }
    {
        let request = RequestRef {
            method: head.method.bytes(),
            target: head.target.bytes(),
            fields: &head.fields,
            body: b"".as_slice(),
        };
        match task_of(alloc, &self.tokens, &request) {
            Ok(_) => Ok(None),
            Err(Stop::Answer(code)) => Ok(Some(HecSay::of(code, None))),
            Err(Stop::OutOfMemory) => Err(AllocError),
        }
    }

    /// What is done for a request with this head and body, as [`HecCore::step`] has it, where a window lends
    /// them. The only error is want of memory.
    pub fn act(&self, alloc: Global, head: &Head, body: &[u8]) -> Result<HecAct, AllocError>
        ensures act { IfOk result (IsAct self.now (with_body head.now body.now)) }
        ensures sound { IfOk result IsSound }
        ensures bounded { IfOk result (λ act. count_of act ≤ length body.now) }
    {
        let request = RequestRef {
            method: head.method.bytes(),
            target: head.target.bytes(),
            fields: &head.fields,
            body,
        };
        self.judge(alloc, &request)
    }
}
