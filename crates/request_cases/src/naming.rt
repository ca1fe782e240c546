use crate::asking::{clock, is_answer, shop};
use cache_seam::{Alone, Cache};
use case_file::Case;
use flow_base::Text;
use line_base::{ScriptLine, Solo};
use partial_fetch::run_request;
use router_config::Request;
use std::test::Fail;

#[test]
fn an_operation_of_another_name_has_no_plan(rt: HostRuntime) -> Result<(), Fail> {
    let alloc = rt.alloc();
    let Case {
        site,
        requests: _,
        replies: _,
    } = shop(alloc)?;
    let request = Request {
        query: Text::of(alloc, "query One { one { id price } }")?,
        operation_name: Some(Text::of(alloc, "Two")?),
        variables: json_tree::read(alloc, b"{}")?,
        id: None,
    };
    let mut cache = Alone::open(alloc, site.config.limits)?;
    let mut lines = Vec::new(alloc);
    lines.push(ScriptLine::of(alloc, Vec::new(alloc)))?;
    let mut clock = clock(alloc)?;
    let answer = run_request(
        alloc, &Solo, &site, &mut cache, &mut lines, &mut clock, &request,
    )?;
    assert!(rt;
        is_answer(
            &answer,
            400,
            "",
            r#"{"errors":[{"message":"operation has no plan","extensions":{"code":"OPERATION_UNKNOWN"}}]}"#,
        )
    );
    assert_eq!(rt; cache.tally().events, 0);
    Ok(())
}
