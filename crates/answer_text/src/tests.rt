use crate::{
    FetchCause, FetchError, Lasts, Refusal, VariableCause, answer_body, cache_control, refusal_body,
};
use flow_base::{Memory, Text};
use gql_shape::{ShapeCode, ShapeError, Shaped};
use json_paths::{Place, Spot};
use json_value::Json;
use std::alloc::Global;
use std::test::Fail;
use tree_items::Items;

fn text(alloc: Global, s: &str) -> Result<Text, Memory> {
    Text::of(alloc, s)
}

fn object(alloc: Global, name: &str, value: Json) -> Result<Json, Memory> {
    let mut members = Items::new(alloc);
    members.push((text(alloc, name)?, value))?;
    Ok(Json::Object(members))
}

/// `name`, and the index after it where it is below 9.
fn place(alloc: Global, name: &str, index: u64) -> Result<Place, Memory> {
    let mut spots = Items::new(alloc);
    spots.push(Spot::Name(text(alloc, name)?))?;
    if index < 9 {
        spots.push(Spot::Index(index))?;
    }
    Ok(Place { spots })
}

/// `{"one":null}` and no errors.
fn shaped(alloc: Global) -> Result<Shaped, Memory> {
    Ok(Shaped {
        value: object(alloc, "one", Json::Null)?,
        errors: Items::new(alloc),
    })
}

/// The body of `{"one":null}` with one error of a call to `b` for the piece at `items`, 0.
fn body_with(alloc: Global, cause: FetchCause) -> Result<Text, Memory> {
    let mut errors = Vec::new(alloc);
    errors.push(FetchError {
        subgraph: text(alloc, "b")?,
        place: Some(place(alloc, "items", 0)?),
        cause,
    })?;
    answer_body(alloc, errors, shaped(alloc)?)
}

const FRONT: &str = "{\"data\":{\"one\":null},\"errors\":[{\"message\":\"";

/// Whether the body has this message, this code and these members after the subgraph's name.
fn says(alloc: Global, body: &Text, message: &str, code: &str, more: &str) -> Result<bool, Memory> {
    let want = format!(in alloc;
        "{FRONT}{message}\",\"path\":[\"items\",0],\"extensions\":{{\"code\":\"{code}\",\"subgraph\":\"b\"{more}}}}}]}}"
    )?;
    Ok(body.as_str() == want.as_str())
}

#[test]
fn each_cause_has_its_error(rt: HostRuntime) -> Result<(), Fail> {
    let alloc = rt.alloc();
    let body = body_with(alloc, FetchCause::Unreachable)?;
    assert!(rt; says(alloc, &body, "subgraph unreachable", "UNREACHABLE", "")?);
    let body = body_with(alloc, FetchCause::TooLong(4194305))?;
    assert!(rt;
        says(
            alloc,
            &body,
            "subgraph reply too long",
            "REPLY_TOO_LONG",
            ",\"bytes\":4194305"
        )?
    );
    let body = body_with(alloc, FetchCause::Status(503))?;
    assert!(rt;
        says(
            alloc,
            &body,
            "subgraph status",
            "SUBGRAPH_STATUS",
            ",\"status\":503"
        )?
    );
    let body = body_with(alloc, FetchCause::NotJson(7))?;
    assert!(rt;
        says(
            alloc,
            &body,
            "subgraph reply not readable",
            "BAD_REPLY",
            ",\"at\":7"
        )?
    );
    let body = body_with(alloc, FetchCause::Misshapen(text(alloc, "_entities")?))?;
    assert!(rt;
        says(
            alloc,
            &body,
            "subgraph reply not readable",
            "BAD_REPLY",
            ",\"member\":\"_entities\""
        )?
    );
    let body = body_with(alloc, FetchCause::Miscounted { got: 1, sent: 2 })?;
    assert!(rt;
        says(
            alloc,
            &body,
            "subgraph reply not readable",
            "BAD_REPLY",
            ",\"got\":1,\"sent\":2"
        )?
    );
    let body = body_with(alloc, FetchCause::Subgraph(text(alloc, "no \"b\"")?))?;
    assert!(rt; says(alloc, &body, "no \\\"b\\\"", "SUBGRAPH_ERROR", "")?);
    Ok(())
}

/// `{"one":null}` with two errors of shaping.
fn ill_shaped(alloc: Global) -> Result<Shaped, Memory> {
    let mut errors = Items::new(alloc);
    errors.push(ShapeError {
        code: ShapeCode::NullInNonNull,
        place: place(alloc, "one", 9)?,
    })?;
    errors.push(ShapeError {
        code: ShapeCode::WrongKind,
        place: place(alloc, "two", 3)?,
    })?;
    let shaped = shaped(alloc)?;
    Ok(Shaped { errors, ..shaped })
}

#[test]
fn errors_stand_in_their_order(rt: HostRuntime) -> Result<(), Fail> {
    let alloc = rt.alloc();
    let whole = answer_body(alloc, Vec::new(alloc), shaped(alloc)?)?;
    assert_eq!(rt; whole.as_str(), "{\"data\":{\"one\":null}}");
    let mut errors = Vec::new(alloc);
    for name in ["b", "a"] {
        errors.push(FetchError {
            subgraph: text(alloc, name)?,
            place: None,
            cause: FetchCause::Unreachable,
        })?;
    }
    let body = answer_body(alloc, errors, ill_shaped(alloc)?)?;
    assert_eq!(rt;
        body.as_str(),
        "{\"data\":{\"one\":null},\"errors\":[{\"message\":\"subgraph unreachable\",\"extensions\":{\"code\":\"UNREACHABLE\",\"subgraph\":\"b\"}},{\"message\":\"subgraph unreachable\",\"extensions\":{\"code\":\"UNREACHABLE\",\"subgraph\":\"a\"}},{\"message\":\"null in a non-null place\",\"path\":[\"one\"],\"extensions\":{\"code\":\"NULL_IN_NON_NULL\"}},{\"message\":\"value of the wrong kind\",\"path\":[\"two\",3],\"extensions\":{\"code\":\"WRONG_KIND\"}}]}"
    );
    Ok(())
}

/// Whether the refusal has this status, this message and this code with these members.
fn refuses(
    alloc: Global,
    refusal: Refusal,
    status: u16,
    message: &str,
    code: &str,
) -> Result<bool, Memory> {
    let right = refusal.status() == status;
    let want = format!(in alloc;
        "{{\"errors\":[{{\"message\":\"{message}\",\"extensions\":{{\"code\":\"{code}}}}}]}}"
    )?;
    let body = refusal_body(alloc, refusal)?;
    Ok(right && body.as_str() == want.as_str())
}

#[test]
fn each_message_refused_has_its_body(rt: HostRuntime) -> Result<(), Fail> {
    let alloc = rt.alloc();
    assert!(rt;
        refuses(
            alloc,
            Refusal::BadMessage,
            400,
            "message not readable",
            "BAD_MESSAGE\""
        )?
    );
    assert!(rt;
        refuses(
            alloc,
            Refusal::TooLong,
            413,
            "message too long",
            "TOO_LONG\""
        )?
    );
    assert!(rt; refuses(alloc, Refusal::NotFound, 404, "no such path", "NOT_FOUND\"")?);
    assert!(rt;
        refuses(
            alloc,
            Refusal::Method,
            405,
            "method not allowed",
            "METHOD\""
        )?
    );
    assert!(rt;
        refuses(
            alloc,
            Refusal::Unauthorized,
            401,
            "invalidation key refused",
            "UNAUTHORIZED\""
        )?
    );
    assert!(rt;
        refuses(
            alloc,
            Refusal::BadJson(5),
            400,
            "body is not JSON",
            "BAD_JSON\",\"at\":5"
        )?
    );
    assert!(rt;
        refuses(
            alloc,
            Refusal::BadRequest,
            400,
            "request is not a GraphQL request",
            "BAD_REQUEST\""
        )?
    );
    assert!(rt;
        refuses(
            alloc,
            Refusal::BadTargets,
            400,
            "invalidation list refused",
            "BAD_TARGETS\""
        )?
    );
    Ok(())
}

fn variable(alloc: Global, cause: VariableCause) -> Result<Refusal, Memory> {
    Ok(Refusal::BadVariables {
        variable: text(alloc, "n")?,
        cause,
    })
}

#[test]
fn each_request_refused_has_its_body(rt: HostRuntime) -> Result<(), Fail> {
    let alloc = rt.alloc();
    assert!(rt;
        refuses(
            alloc,
            Refusal::BadDocument(0),
            400,
            "document not readable",
            "BAD_DOCUMENT\",\"at\":0"
        )?
    );
    assert!(rt;
        refuses(
            alloc,
            Refusal::OperationUnknown,
            400,
            "operation has no plan",
            "OPERATION_UNKNOWN\""
        )?
    );
    let missing = variable(alloc, VariableCause::Missing)?;
    assert!(rt;
        refuses(
            alloc,
            missing,
            400,
            "variable refused",
            "BAD_VARIABLES\",\"variable\":\"n\",\"cause\":\"missing\""
        )?
    );
    let null = variable(alloc, VariableCause::Null)?;
    assert!(rt;
        refuses(
            alloc,
            null,
            400,
            "variable refused",
            "BAD_VARIABLES\",\"variable\":\"n\",\"cause\":\"null\""
        )?
    );
    let kind = variable(alloc, VariableCause::Kind)?;
    assert!(rt;
        refuses(
            alloc,
            kind,
            400,
            "variable refused",
            "BAD_VARIABLES\",\"variable\":\"n\",\"cause\":\"kind\""
        )?
    );
    Ok(())
}

fn lasts(left_ms: u64, private: bool) -> Option<Lasts> {
    Some(Lasts { left_ms, private })
}

#[test]
fn an_answer_is_kept_as_long_as_each_piece(rt: HostRuntime) -> Result<(), Fail> {
    let alloc = rt.alloc();
    for (pieces, want) in [
        (
            [lasts(60000, false), lasts(60000, false)],
            "max-age=60, public",
        ),
        (
            [lasts(60000, false), lasts(55999, false)],
            "max-age=55, public",
        ),
        (
            [lasts(28999, true), lasts(60000, false)],
            "max-age=28, private",
        ),
        (
            [lasts(60000, false), lasts(30000, true)],
            "max-age=30, private",
        ),
        (
            [lasts(999, false), lasts(60000, false)],
            "max-age=0, public",
        ),
        ([None, lasts(60000, false)], "no-store"),
        ([lasts(60000, true), None], "no-store"),
    ] {
        assert_eq!(rt; cache_control(alloc, pieces.as_slice())?.as_str(), want);
    }
    assert_eq!(rt; cache_control(alloc, &[])?.as_str(), "no-store");
    Ok(())
}
