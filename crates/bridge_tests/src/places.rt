//! Three places, what the one link of each gives and is answered, and the peer to which the events go on.
use crate::script::OPENED;

/// What is answered to a link next, and the events that it acknowledges.
pub(crate) struct Answer {
    pub(crate) text: &'static [u8],
    pub(crate) events: &'static [&'static [u8]],
}

/// A place, what its one link gives, and the answers.
pub(crate) struct Place {
    pub(crate) name: &'static str,
    pub(crate) input: &'static [u8],
    pub(crate) answers: &'static [Answer],
}

const RELP: &[u8] =
    b"1 open 50 relp_version=0\nrelp_software=a,1,b\ncommands=syslog\n2 syslog 5 first\n3 syslog 6 second\n";

const LUMBERJACK: &[u8] =
    b"2W\0\0\0\x032J\0\0\0\x01\0\0\0\x07{\"a\":1}2J\0\0\0\x02\0\0\0\x07{\"a\":2}2J\0\0\0\x03\0\0\0\x07{\"a\":3}";

const HEC: &[u8] = b"POST /services/collector/event HTTP/1.1\r\n\
    Authorization: Splunk 11111111-2222-3333-4444-555555555555\r\nContent-Length: 26\r\n\r\n\
    {\"event\":\"b\"}{\"event\":\"c\"}";

/// The places, in the order in which the doors come back.
pub(crate) const PLACES: [Place; 3] = [
    Place {
        name: "r",
        input: RELP,
        answers: &[
            Answer {
                text: OPENED,
                events: &[],
            },
            Answer {
                text: b"2 rsp 6 200 OK\n",
                events: &[b"first"],
            },
            Answer {
                text: b"3 rsp 6 200 OK\n",
                events: &[b"second"],
            },
        ],
    },
    Place {
        name: "l",
        input: LUMBERJACK,
        answers: &[Answer {
            text: b"2A\0\0\0\x03",
            events: &[b"{\"a\":1}", b"{\"a\":2}", b"{\"a\":3}"],
        }],
    },
    Place {
        name: "h",
        input: HEC,
        answers: &[Answer {
            text: b"HTTP/1.1 200 OK\r\nContent-Type: application/json\r\nContent-Length: 27\r\n\r\n{\"text\":\"Success\",\"code\":0}",
            events: &[b"{\"event\":\"b\"}", b"{\"event\":\"c\"}"],
        }],
    },
];

/// How many events the links give.
pub(crate) const EVENTS: u64 = 7;

/// The words of a run that serves these places, one connection at each, and forwards to the place `d`.
pub(crate) const WORDS: &str =
    "serve --relp r --lumberjack l --hec h --workers 1 --talks 1 --token 11111111-2222-3333-4444-555555555555 --forward relp --to d";

/// The same of a run that stores together what came together.
pub(crate) const GROUPED: &str =
    "serve --relp r --lumberjack l --hec h --workers 1 --talks 1 --token 11111111-2222-3333-4444-555555555555 \
    --group --forward relp --to d";

/// What the peer at `d` replies.
pub(crate) const REPLIES: &[u8] =
    b"1 rsp 6 200 OK\n2 rsp 6 200 OK\n3 rsp 6 200 OK\n4 rsp 6 200 OK\n5 rsp 6 200 OK\n6 rsp 6 200 OK\n7 rsp 6 200 OK\n8 rsp 6 200 OK\n9 rsp 6 200 OK\n";
