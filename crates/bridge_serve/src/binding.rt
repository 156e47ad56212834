//! Binds the doors of a server: at each place that its words name, one for each worker; and listens where its words say that others
//! ask for numbers.
ghost use Rattle.std.specs.Prelude.{◌≡◌, ◌*◌, ◌+◌, ◌≤◌, ◌++◌, ◌↔◌, ℕ, Some, IsSome, map, slice_get, vec_len, IfOk, IfErr};
ghost use Rattle.std.specs.Vec.{vec_capacity};
ghost use Rattle.edge_io.specs.Net.{SameHung, HasNetCause};
ghost use Rattle.serve_workers.specs.Crews.{IsRoom};
ghost use Rattle.bridge_serve.specs.Doors.{rules_of, place_for, workers_at, first_worker, binds_at, binds_of, TellsBound, ruled_by, AddsDoors, AreBound, AreUnused};
ghost use Rattle.bridge_serve.specs.Answered.{MayBind, StandsAt};

use crate::watching::watch;
use bridge_words::Server;
use conn_serve::Rules;
use edge_io::{Door, Net, NetFault, Proto};
use notes::Place;
use serve_workers::Post;
use std::alloc::{AllocError, Global};

/// Where the workers of a server serve, and room to hand their doors back.
#[derive(Drop)]
pub(crate) struct Posts<P: Door> {
    /// Where each worker serves, in their order.
    pub(crate) posts: Vec<Post<P>>,
    /// An empty list with room for the doors.
    pub(crate) room: Vec<P>,
}

impl<P: Door + Drop> Posts<P> {
    /// No post, and room for as many as a server has whose places have so many workers each. The error is want of memory.
    pub(crate) fn reserve(alloc: Global, workers: u32) -> Result<Posts<P>, AllocError>
        requires { workers ≤ 1024 }

        ensures posts { IfOk result (λ made. IsRoom (3 * workers) made.posts) }
        ensures room { IfOk result (λ made. IsRoom (3 * workers) made.room) }
    {
        let many = 3 * workers as usize;
        Ok(Posts {
            posts: Vec::with_capacity(alloc, many)?,
            room: Vec::with_capacity(alloc, many)?,
        })
    }

    /// The doors, in the order of their workers. Nothing is allocated.
    pub(crate) fn into_doors(self) -> Vec<P>
        requires { IsRoom (vec_len self.posts) self.room }
        ensures { result.items ≡ map (λ (post : _). post.door) self.posts.items }
    {
        let Posts { posts, room } = self;
        let mut doors = room;
        for post in posts {
            let Post { door, .. } = post;
            doors.push_reserved(door);
        }
        doors
    }
}

// The rules by which the server serves connections of that protocol: its words' tokens, with those of the list, and `--group`,
// whatever the protocol.
fn rules_of(server: &Server, proto: Proto) -> Rules
    ensures { result ≡ rules_of server.now proto }
{
    Rules {
        proto,
        token: server.token,
        ack_token: server.ack_token,
        listed: server.listed.share(),
        group: server.group,
    }
}

// Adds the doors at the end, each with these rules, in the room that there is for them.
fn add_doors<P: Door + Drop>(posts: &mut Vec<Post<P>>, doors: Vec<P>, rules: &Rules)
    requires room { vec_len posts.old + vec_len doors ≤ vec_capacity posts.old }

    ensures doors { map (λ (post : _). post.door) posts.new.items ≡ map (λ (post : _). post.door) posts.old.items ++ doors.items }
    ensures rules { map (λ (post : _). post.rules) posts.new.items
        ≡ map (λ (post : _). post.rules) posts.old.items ++ map (λ (door : _). rules.now) doors.items }
    ensures many { vec_len posts.new ≡ vec_len posts.old + vec_len doors }
    ensures room { vec_capacity posts.new ≡ vec_capacity posts.old }
{
    for door in doors {
        posts.push_reserved(Post {
            door,
            rules: rules.share(),
        });
    }
}

// Binds a door for each worker at the place that the words name for the protocol, if there is one, and adds these doors at the end, in
// the room that there is for them. The error is the net's: the place was not bound, and nothing is added.
fn bind_at<N: Net>(
    server: &Server,
    proto: Proto,
    place: &Option<Place>,
    net: &mut N,
    posts: &mut Vec<Post<N::P>>,
) -> Result<(), NetFault>
where
    N::P: Drop,
    requires named { place.now ≡ place_for server.now proto }
    requires binds { MayBind server.now N.may_bind }
    requires room { vec_len posts.old + server.now.workers ≤ vec_capacity posts.old }
    requires first { vec_len posts.old ≡ first_worker server.now proto }
    requires stand { (i : ℕ) (post : _) → slice_get posts.old.items i ≡ Some post
        → StandsAt server.now N.permits i post.rules (N.P.permits post.door) }

    ensures bound { IfOk result (λ _. AddsDoors server.now proto place.now (ruled_by N.P.told posts.old.items)
        (ruled_by N.P.told posts.new.items)) }
    ensures told { IfOk result (λ _. TellsBound (binds_at server.now.workers place.now) (N.told net.old).bound (N.told net.new).bound) }
    ensures many { IfOk result (λ _. vec_len posts.new ≡ vec_len posts.old + workers_at server.now place.now) }
    ensures stand { IfOk result (λ _. (i : ℕ) (post : _) → slice_get posts.new.items i ≡ Some post
        → StandsAt server.now N.permits i post.rules (N.P.permits post.door)) }
    ensures room { vec_capacity posts.new ≡ vec_capacity posts.old }
    ensures err { IfErr result (λ _. (posts.new ≡ posts.old) × ((N.told net.new).bound ≡ (N.told net.old).bound)) }
    ensures cause { HasNetCause (N.told net.old).net_faults (N.told net.new).net_faults result }
    ensures rest { SameHung (N.told net.old) (N.told net.new) }
{
    let Some(place) = place else {
        return Ok(());
    };
    let doors = net.bind(place.as_str(), server.workers)?;
    add_doors(posts, doors, &rules_of(server, proto));
    Ok(())
}

// Binds a door for each worker at the place of RELP, then at that of Lumberjack, then at that of the collector, where the words name
// them, and lists these doors in that order, each with the rules of its protocol, in the room that there is for three for each worker.
// What may be written at a place may be written to the links of its doors. After an error the doors that were bound before it are
// listed.
fn bind_doors<N: Net>(
    server: &Server,
    net: &mut N,
    posts: &mut Vec<Post<N::P>>,
) -> Result<(), NetFault>
where
    N::P: Drop,
    requires binds { MayBind server.now N.may_bind }
    requires room { IsRoom (3 * server.now.workers) posts.old }

    ensures bound { IfOk result (λ _. AreBound server.now (map (λ (post : _). N.P.told post.door) posts.new.items)
        (map (λ (post : _). post.rules) posts.new.items)) }
    ensures told { IfOk result (λ _. TellsBound (binds_of server.now) (N.told net.old).bound (N.told net.new).bound) }
    ensures stand { IfOk result (λ _. (i : ℕ) (post : _) → slice_get posts.new.items i ≡ Some post
        → StandsAt server.now N.permits i post.rules (N.P.permits post.door)) }
    ensures few { vec_len posts.new ≤ 3 * server.now.workers }
    ensures err { IfErr result (λ _. AreUnused server.now (N.told net.old).bound (N.told net.new).bound
        (map (λ (post : _). N.P.told post.door) posts.new.items)) }
    ensures cause { HasNetCause (N.told net.old).net_faults (N.told net.new).net_faults result }
    ensures rest { SameHung (N.told net.old) (N.told net.new) }
{
    bind_at(server, Proto::Relp, &server.relp, net, posts)?;
    bind_at(server, Proto::Lumberjack, &server.lumberjack, net, posts)?;
    bind_at(server, Proto::Hec, &server.hec, net, posts)?;
    Ok(())
}

/// Listens for those who ask for numbers at the place of `--status`, where the words name one, and answers the monitor that they come
/// to. Then binds a door for each worker at the place of RELP, at that of Lumberjack and at that of the collector, where the words name
/// them, and lists these doors in that order, each with the rules of its protocol, in the room that there is for three for each worker.
/// What may be written at a place may be written to the links of its doors.
///
/// `Fault` comes only where the net's count of faults rose in this call, `NoMemory` where no memory was found. The doors that were
/// bound before the error are listed then: none, where nobody can ask for numbers at the place.
pub(crate) fn bind_places<N: Net>(
    server: &Server,
    net: &mut N,
    posts: &mut Vec<Post<N::P>>,
) -> Result<Option<N::M>, NetFault>
where
    N::P: Drop,
    N::M: Drop,
    requires binds { MayBind server.now N.may_bind }
    requires room { IsRoom (3 * server.now.workers) posts.old }

    ensures listens { IfOk result (λ monitor. IsSome monitor ↔ IsSome server.now.status) }
    ensures bound { IfOk result (λ _. AreBound server.now (map (λ (post : _). N.P.told post.door) posts.new.items)
        (map (λ (post : _). post.rules) posts.new.items)) }
    ensures told { IfOk result (λ _. TellsBound (binds_of server.now) (N.told net.old).bound (N.told net.new).bound) }
    ensures stand { IfOk result (λ _. (i : ℕ) (post : _) → slice_get posts.new.items i ≡ Some post
        → StandsAt server.now N.permits i post.rules (N.P.permits post.door)) }
    ensures few { vec_len posts.new ≤ 3 * server.now.workers }
    ensures err { IfErr result (λ _. AreUnused server.now (N.told net.old).bound (N.told net.new).bound
        (map (λ (post : _). N.P.told post.door) posts.new.items)) }
    ensures cause { HasNetCause (N.told net.old).net_faults (N.told net.new).net_faults result }
    ensures rest { SameHung (N.told net.old) (N.told net.new) }
{
    let monitor = watch(&server.status, net)?;
    bind_doors(server, net, posts)?;
    Ok(monitor)
}
