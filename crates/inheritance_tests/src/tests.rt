// What rules answer, and what is refused, at the edges.
use inheritance::base::Base;
use inheritance::priorities::Priorities;
use inheritance::queue::Queue;
use inheritance::rule::Rule;
use inheritance::tenancy::Tenancy;
use inheritance::tree::Tree;
use market::agent::Agent;
use market::node::Node;
use market::place::Place;
use market::refusal::Refusal;
use market::sizes::Sizes;
use market::standing::Standing;
use market::tenant::Tenant;
use std::process::Abort;
use std::test::Fail;

const W: Standing = Standing::Waiting;

const U: Standing = Standing::Unplaced;

const P0: Standing = Standing::Placed(Place { number: 0 });

const P1: Standing = Standing::Placed(Place { number: 1 });

const P2: Standing = Standing::Placed(Place { number: 2 });

const P3: Standing = Standing::Placed(Place { number: 3 });

/// An order of three agents.
const ORDER: [Agent; 3] = [
    Agent { number: 3 },
    Agent { number: 1 },
    Agent { number: 2 },
];

/// Three agents and two places.
const SIZES: Sizes = Sizes {
    agents: 3,
    places: 2,
};

/// A row, a place, and the number of the owner or of the refusal.
type Case<'a> = (&'a [Standing], u16, Result<u16, u8>);

/// So many agents and places.
fn sizes(agents: u16, places: u16) -> Sizes {
    Sizes { agents, places }
}

/// A node of a place, with parent, took number and heir.
fn node(place: u16, parent: u16, took: u16, heir: u16) -> Node {
    Node {
        place: Place::from(place),
        parent,
        took,
        heir: Agent::from(heir),
    }
}

/// A tenant of a place.
fn tenant(place: u16, agent: u16) -> Tenant {
    Tenant {
        place: Place::from(place),
        agent: Agent::from(agent),
    }
}

/// The rule answers so.
fn expect<R: Rule>(rt: &impl Abort, rule: &R, cases: &[Case]) -> Result<(), Fail> {
    for (row, place, expected) in cases {
        let answer = rule
            .owner_of(row, Place::from(*place))
            .map(|owner| owner.number)
            .map_err(|refusal| refusal.number());
        assert_eq!(rt; answer, *expected);
    }
    Ok(())
}

/// The number of the refusal of a maker, if it refuses.
fn refused<R: Drop>(made: Result<R, Refusal>) -> Option<u8> {
    made.err().map(|refusal| refusal.number())
}

#[test]
fn questions(rt: HostRuntime) -> Result<(), Fail> {
    let cases: [Case; 10] = [
        (&[W, W, W], 1, Ok(3)),
        (&[W, W, P2], 2, Ok(1)),
        (&[U, W, P1], 2, Ok(2)),
        (&[U, P1, U], 1, Err(21)),
        (&[W, W], 1, Err(21)),
        (&[W, W, W, W], 1, Err(21)),
        (&[W, W, P0], 1, Err(21)),
        (&[W, W, P3], 1, Err(21)),
        (&[W, W, W], 0, Err(21)),
        (&[W, W, W], 3, Err(21)),
    ];
    expect(&rt, &Queue::new(SIZES, &ORDER)?, &cases)
}

// Queues of two agents: the numbers of agents and places, the order, and the refusal.
#[test]
fn queues(rt: HostRuntime) {
    let cases: [(u16, u16, u16, u16, Option<u8>); 10] = [
        (2, 1, 2, 1, None),
        (2, 40, 1, 2, None),
        (2, 41, 1, 2, Some(22)),
        (2, 0, 1, 2, Some(22)),
        (0, 1, 1, 2, Some(22)),
        (1, 1, 1, 2, Some(22)),
        (3, 1, 1, 2, Some(22)),
        (2, 1, 1, 3, Some(22)),
        (2, 1, 0, 1, Some(22)),
        (2, 1, 2, 2, Some(22)),
    ];
    for (agents, places, first, second, refusal) in cases {
        let order = [Agent::from(first), Agent::from(second)];
        assert_eq!(rt; refused(Queue::new(sizes(agents, places), &order)), refusal);
    }
}

// The most agents that a queue may have, and one more.
#[test]
fn most_agents(rt: HostRuntime) -> Result<(), Fail> {
    let mut order = Vec::new(rt.alloc());
    for agent in 1..=200u16 {
        order.push(Agent::from(agent))?;
    }
    assert_eq!(rt; refused(Queue::new(sizes(200, 1), order.as_slice())), None);
    order.push(Agent::from(201))?;
    assert_eq!(rt;
        refused(Queue::new(sizes(201, 1), order.as_slice())),
        Some(22)
    );
    Ok(())
}

// The walk goes down by a place and then by nothing. It ends where an heir left with a number that no child has, and
// where a place has no root.
#[test]
fn walks(rt: HostRuntime) -> Result<(), Fail> {
    let nodes = [node(1, 0, 0, 1), node(1, 1, 2, 2), node(1, 2, 0, 3)];
    let cases: [Case; 6] = [
        (&[W, W, W], 1, Ok(1)),
        (&[P2, W, W], 1, Ok(2)),
        (&[P2, U, W], 1, Ok(3)),
        (&[P2, P1, W], 1, Ok(3)),
        (&[P1, W, U], 1, Ok(2)),
        (&[W, W, U], 2, Ok(1)),
    ];
    let queue = Queue::new(SIZES, &ORDER)?;
    expect(&rt, &Tree::new(queue, &nodes)?, &cases)
}

// A node after the root of place 1, and the refusal.
#[test]
fn trees(rt: HostRuntime) -> Result<(), Fail> {
    let cases: [(u16, u16, u16, u16, Option<u8>); 12] = [
        (2, 0, 0, 3, None),
        (1, 1, 2, 1, None),
        (1, 1, 0, 2, None),
        (0, 0, 0, 1, Some(22)),
        (3, 0, 0, 1, Some(22)),
        (2, 0, 0, 0, Some(22)),
        (2, 0, 0, 4, Some(22)),
        (2, 0, 1, 1, Some(22)),
        (1, 1, 3, 2, Some(22)),
        (1, 2, 0, 1, Some(22)),
        (2, 1, 0, 2, Some(22)),
        (1, 0, 0, 2, Some(22)),
    ];
    let queue = Queue::new(SIZES, &ORDER)?;
    for (place, parent, took, heir, refusal) in cases {
        let nodes = [node(1, 0, 0, 1), node(place, parent, took, heir)];
        assert_eq!(rt; refused(Tree::new(queue, &nodes)), refusal);
    }
    Ok(())
}

// The most nodes that a tree may have, and one more.
#[test]
fn most_nodes(rt: HostRuntime) -> Result<(), Fail> {
    let queue = Queue::new(SIZES, &ORDER)?;
    let mut nodes = Vec::new(rt.alloc());
    for parent in 0..300u16 {
        nodes.push(node(1, parent, 0, 1))?;
    }
    assert_eq!(rt; refused(Tree::new(queue, nodes.as_slice())), None);
    nodes.push(node(1, 300, 0, 1))?;
    assert_eq!(rt; refused(Tree::new(queue, nodes.as_slice())), Some(22));
    Ok(())
}

// A tenant after the tenant of place 1, and the refusal.
#[test]
fn tenancies(rt: HostRuntime) -> Result<(), Fail> {
    let cases: [(u16, u16, Option<u8>); 6] = [
        (2, 1, None),
        (1, 2, Some(22)),
        (0, 1, Some(22)),
        (3, 1, Some(22)),
        (2, 0, Some(22)),
        (2, 4, Some(22)),
    ];
    let queue = Queue::new(SIZES, &ORDER)?;
    for (place, agent, refusal) in cases {
        let tenants = [tenant(1, 1), tenant(place, agent)];
        assert_eq!(rt; refused(Tenancy::new(queue, &tenants)), refusal);
    }
    Ok(())
}

// A pile of a tenancy on a tree on priorities: a tenant that has left, an heir that has left, and the place's order.
#[test]
fn piles(rt: HostRuntime) -> Result<(), Fail> {
    let orders = [ORDER.to_vec(rt.alloc())?, ORDER.to_vec(rt.alloc())?];
    let nodes = [node(2, 0, 0, 2)];
    let tenants = [tenant(2, 1)];
    let cases: [Case; 4] = [
        (&[W, W, W], 2, Ok(1)),
        (&[U, W, W], 2, Ok(2)),
        (&[U, P1, W], 2, Ok(3)),
        (&[W, W, W], 1, Ok(3)),
    ];
    let priorities = Priorities::new(SIZES, &orders)?;
    let tree = Tree::new(Base::ByPriorities(priorities), &nodes)?;
    expect(&rt, &Tenancy::new(tree, &tenants)?, &cases)
}

// Lists for two places, where one is asked for.
#[test]
fn priorities(rt: HostRuntime) -> Result<(), Fail> {
    let orders = [ORDER.to_vec(rt.alloc())?, ORDER.to_vec(rt.alloc())?];
    assert_eq!(rt; refused(Priorities::new(SIZES, &orders)), None);
    assert_eq!(rt; refused(Priorities::new(sizes(3, 1), &orders)), Some(22));
    assert_eq!(rt; refused(Priorities::new(sizes(3, 3), &orders)), Some(22));
    assert_eq!(rt; refused(Priorities::new(sizes(2, 2), &orders)), Some(22));
    Ok(())
}
