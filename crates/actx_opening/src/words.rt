//! The texts behind the literals.

/// The words of the opening store after the first one, `length`, each ended by a line feed.
pub(crate) const WORDS: [u8; 1345] = *b"\
    size\n\
    then\n\
    prototype\n\
    constructor\n\
    name\n\
    defaultValue\n\
    triggerAsyncId\n\
    init\n\
    before\n\
    after\n\
    destroy\n\
    undefined\n\
    object\n\
    boolean\n\
    number\n\
    string\n\
    function\n\
    message\n\
    cause\n\
    errors\n\
    value\n\
    done\n\
    not a function\n\
    not a constructor\n\
    not iterable\n\
    no property of undefined or null\n\
    frozen\n\
    generator is running\n\
    promise resolved with itself\n\
    class called without new\n\
    wrong receiver\n\
    bad argument\n\
    not an object\n\
    not initialised\n\
    destroyed twice\n\
    cannot find module\n\
    log\n\
    operation\n\
    nextTick\n\
    exit\n\
    keys\n\
    values\n\
    entries\n\
    assign\n\
    freeze\n\
    create\n\
    getPrototypeOf\n\
    hasOwn\n\
    call\n\
    apply\n\
    bind\n\
    isArray\n\
    of\n\
    from\n\
    push\n\
    pop\n\
    shift\n\
    unshift\n\
    slice\n\
    concat\n\
    indexOf\n\
    includes\n\
    join\n\
    reverse\n\
    map\n\
    forEach\n\
    filter\n\
    reduce\n\
    find\n\
    some\n\
    every\n\
    startsWith\n\
    endsWith\n\
    split\n\
    repeat\n\
    padStart\n\
    padEnd\n\
    charCodeAt\n\
    isInteger\n\
    isSafeInteger\n\
    abs\n\
    max\n\
    min\n\
    floor\n\
    trunc\n\
    sign\n\
    get\n\
    set\n\
    has\n\
    delete\n\
    clear\n\
    add\n\
    resolve\n\
    reject\n\
    all\n\
    allSettled\n\
    race\n\
    any\n\
    withResolvers\n\
    catch\n\
    finally\n\
    next\n\
    return\n\
    throw\n\
    Variable\n\
    run\n\
    Snapshot\n\
    wrap\n\
    snapshot\n\
    enterWith\n\
    getStore\n\
    disable\n\
    runInAsyncScope\n\
    emitDestroy\n\
    asyncId\n\
    createHook\n\
    enable\n\
    executionAsyncId\n\
    executionAsyncResource\n\
    on\n\
    once\n\
    off\n\
    emit\n\
    setTimeout\n\
    setImmediate\n\
    AsyncLocalStorage\n\
    AsyncResource\n\
    EventEmitter\n\
    setInterval\n\
    clearTimeout\n\
    clearInterval\n\
    clearImmediate\n\
    MAX_SAFE_INTEGER\n\
    MIN_SAFE_INTEGER\n\
    require\n\
    queueMicrotask\n\
    Object\n\
    Array\n\
    String\n\
    Number\n\
    Boolean\n\
    Error\n\
    TypeError\n\
    RangeError\n\
    ReferenceError\n\
    AggregateError\n\
    Map\n\
    Set\n\
    Promise\n";
