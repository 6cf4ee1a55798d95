//! Parts of alerts, with what they come to by hand.
use crate::{GatherFault, gather};
use clip_meaning::Article;
use clip_standing::{Alert, Alerts, Standing};
use std::alloc::Global;
use std::sync::{Arc, ArcStr};
use std::test::Fail;

/// The alerts of queries with these ids and listeners, in this order, of which so many were tried.
fn part(
    alloc: Global,
    article: &Article,
    asked: u64,
    queries: &[(&str, Option<&str>)],
) -> Result<Alerts, Fail> {
    let mut alerts = Vec::new(alloc);
    for (id, listener) in queries {
        let listener = match listener {
            Some(name) => Some(String::from_str(alloc, name)?),
            None => None,
        };
        let id = String::from_str(alloc, id)?;
        let standing = Standing::read(alloc, id, String::from_str(alloc, "tea")?, listener)?;
        alerts.push(Alert::of(&Arc::new(alloc, standing)?, article)?)?;
    }
    Ok(Alerts {
        article: ArcStr::from_str(alloc, "a1")?,
        place: 3,
        asked,
        alerts,
    })
}

/// The ids of the alerts in order, a blank behind each, and where a query has a listener its first letter before it.
fn ids(alloc: Global, alerts: &[Alert]) -> Result<String, Fail> {
    let mut ids = String::new(alloc);
    for alert in alerts {
        if let Some(name) = alert.listener() {
            ids.push_str(name.as_str())?;
            ids.push(':')?;
        }
        ids.push_str(alert.query().as_str())?;
        ids.push(' ')?;
    }
    Ok(ids)
}

fn article(alloc: Global) -> Result<Article, Fail> {
    let mut fields = Vec::new(alloc);
    let name = String::from_str(alloc, "text")?;
    fields.push((name, String::from_str(alloc, "Tea prices")?))?;
    Ok(Article::read(alloc, "a1", &fields)?)
}

#[test]
fn parts_are_gathered_in_the_byte_order_of_ids(rt: HostRuntime) -> Result<(), Fail> {
    let alloc = rt.alloc();
    let article = article(alloc)?;
    let first = part(
        alloc,
        &article,
        7,
        &[("b", Some("mail")), ("d", None), ("é", None)],
    )?;
    let none = part(alloc, &article, 40, &[])?;
    let third = part(
        alloc,
        &article,
        3,
        &[("B", None), ("a", None), ("d", Some("feed")), ("z", None)],
    )?;
    let fourth = part(alloc, &article, 0, &[("c", Some("feed"))])?;
    let mut parts = Vec::new(alloc);
    for part in [first, none, third, fourth] {
        parts.push(part)?;
    }
    let all = gather(alloc, parts)?;
    let found = ids(alloc, &all.alerts)?;
    assert_eq!(rt; found.as_str(), "B a mail:b feed:c d feed:d z é ");
    assert_eq!(rt; all.asked, 50);
    let nothing = gather(alloc, Vec::new(alloc))?;
    assert_eq!(rt; nothing.asked, 0);
    assert_eq!(rt; nothing.alerts.len(), 0);
    Ok(())
}

#[test]
fn parts_that_cannot_be_gathered_are_refused(rt: HostRuntime) -> Result<(), Fail> {
    let alloc = rt.alloc();
    let article = article(alloc)?;
    let mut parts = Vec::new(alloc);
    parts.push(part(alloc, &article, 1, &[("a", None), ("c", None), ("b", None)])?)?;
    assert!(rt; matches!(gather(alloc, parts), Err(GatherFault::Order)));
    let mut parts = Vec::new(alloc);
    parts.push(part(alloc, &article, u64::MAX, &[("b", None), ("a", None)])?)?;
    parts.push(part(alloc, &article, 1, &[])?)?;
    assert!(rt; matches!(gather(alloc, parts), Err(GatherFault::TooMany)));
    Ok(())
}
